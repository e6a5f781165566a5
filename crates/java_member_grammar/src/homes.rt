// Where a type or a member stands.

/// At the top of a file, in the body of a class or an enum, or in that of an interface.
#[derive(Clone, Copy, Debug, PartialEq, Eq)]
pub enum JHome {
    File,
    Class,
    Interface,
}
