// Qualified names, which both languages spell alike.

use j2k_base::{Name, Series};

/// The parts of a qualified name, as of a package.
pub type Names = Series<Name>;
