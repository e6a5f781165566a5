// What is in scope.

use j2k_base::{Name, Text};
use java_classes::NameFault;
use java_tables::NameMap;
use java_tree::Position;
use java_type_names::Place;
use sqlite_items::Items;

/// What was opened and isn't closed yet.
#[derive(Drop)]
pub enum Frame {
    Block,
    Loop,
    Switch,
    Lambda,
    /// The arguments of `this(..)` or `super(..)`.
    Arguments,
    /// The statement of a label.
    Label(Name),
}

/// A scope that was opened, and how many locals there were then.
#[derive(Drop)]
pub struct Opened {
    pub frame: Frame,
    pub locals: usize,
}

/// What a look-up by name finds.
#[derive(Clone, Copy)]
pub enum Answer {
    Absent,
    Static,
    Instance,
    Several,
    /// Not known, since the class isn't built yet.
    Open,
}

/// What the expression, or the name of a type, that was read last means.
#[derive(Clone, Copy)]
pub enum Current {
    Value,
    /// `this` (JLS 15.8.3).
    This,
    /// `super`, before a dot and a method.
    Super,
    /// The beginning of a name: what it means, and where its last identifier stands.
    Begun(Place, Position),
    /// What isn't known has no further fault.
    Unknown,
}

/// What is in scope: the locals with the places of their declarations, the oldest first; the scopes, the outermost first;
/// what was read last; the text of the name that began last; the faults so far.
#[derive(Drop)]
pub struct State {
    pub locals: NameMap<Position>,
    pub frames: Items<Opened>,
    pub current: Current,
    pub text: Text,
    pub faults: Items<NameFault>,
}
