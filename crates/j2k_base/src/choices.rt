// The choices of a conversion, which its report lists.

use crate::{Place, Series, Text};

/// What was chosen, in the order in which the report lists choices of one place.
#[derive(Clone, Copy, Debug, PartialEq, Eq)]
pub enum ChoiceKind {
    /// A class's statics stand in its companion.
    Companion,
    /// An accessor pair became a property.
    Property,
    /// A method has another name.
    Rename,
    /// A member that wasn't public is public.
    Widen,
    /// A type may hold null.
    Nullable,
    /// A `switch` became a `when`.
    When,
    /// A `switch` became a chain.
    Chain,
    /// A `for` goes over a range.
    Range,
    /// A `for` became a `while`.
    While,
    /// Parts of an expression are bound by `run`.
    Bind,
    /// A parameter is copied to a variable.
    Copy,
    /// A constant expression became its value.
    Fold,
    /// A comment isn't carried.
    Drop,
}

/// A choice, the place that it concerns and what it says of it.
#[derive(Debug, Drop)]
pub struct Choice {
    pub kind: ChoiceKind,
    pub place: Place,
    pub text: Text,
}

pub type Choices = Series<Choice>;
