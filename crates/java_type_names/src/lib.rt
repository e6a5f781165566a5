//! What the names of types and packages mean in a file: imports, simple names, names with dots; the supertypes that
#![tactic(auto)]

mod classes;
mod imports;
mod laws;
mod places;
mod scopes;

pub use classes::{Meant, World, seen_at};
pub use imports::{file_scope, walked};
pub use laws::one_class;
pub use places::{Place, first_type, next_part};
pub use scopes::{FileScope, Found, Single, simple_class};
