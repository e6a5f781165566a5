//! The symbols of which a way to write a form consists.

/// A symbol of a way to write a form.
#[derive(Clone, Copy)]
pub enum Symbol<T, F, A> {
    /// Tokens that the terminal takes.
    Term(T),
    /// A form, in any of its ways.
    Form(F),
    /// What is built of the parts before it. It takes no token.
    Act(A),
}
