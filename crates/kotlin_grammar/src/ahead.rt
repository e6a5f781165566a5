// Tokens with their kinds.

use crate::letters::Kind;
use kotlin_tree::KToken;

/// A token and its kind.
#[derive(Drop)]
pub struct Letter {
    pub kind: Kind,
    pub token: KToken,
}

/// Where one is among the arguments of a type: a name must follow, or a name, a `>` or a `?` has just stood.
#[derive(Clone, Copy)]
pub enum Spot {
    Type,
    Name,
    Closed,
    Asked,
}

/// What a token does there.
#[derive(Clone, Copy)]
pub enum Step {
    /// It belongs to the arguments.
    To(Spot),
    /// One more `<` is open.
    Open,
    /// One fewer is open.
    Close,
    /// It is no token of the arguments.
    Out,
}
