//! What the readers are asked for, and what they answer.

use j2k_base::NoMemory;
use java_modifier_rules::{Owner, Role};
use java_token_cursor::Pieces;
use java_tree::Position;
use java_unit_grammar::{JBody, JCase, JMember, JStatement};
use sqlite_items::{Boxed, Items};

/// What is asked for.
#[derive(Clone, Copy)]
pub enum Ask<'a> {
    /// The body that all of the pieces are, of a lambda or of a class.
    Body(bool),
    /// A label of a switch.
    Label,
    Statement(Role),
    Member(Owner<'a>),
}

/// What is found.
#[derive(Drop)]
pub enum Part {
    Body(Boxed<JBody>),
    Label(Boxed<JCase>),
    Statement(Boxed<JStatement>),
    Member(Boxed<JMember>),
}

/// What is found and the pieces after it; None where the pieces begin with no such thing.
pub type Answer<'a, T> = Result<Option<(T, Pieces<'a>)>, NoMemory>;

/// A head and its bodies.
pub type Headed<H> = (Boxed<H>, Items<JBody>);

/// `(`, a head, its bodies, `)`.
pub type Rounded<H> = (Position, Boxed<H>, Items<JBody>, Position);

/// `{`, what stands in the braces, `}`.
pub type Braced<T> = (Position, Items<T>, Position);

/// What ends a list, without being a part of it.
#[derive(Clone, Copy)]
pub enum Until {
    /// The end of the pieces.
    End,
    /// A `}`.
    Close,
    /// A label of a switch or a `}`.
    Group,
    /// What is no label of a switch.
    NoCase,
    /// What is no `catch`.
    NoCatch,
}
