//! The heads of types and members: modifiers, type parameters, formal parameters, what a type extends, what a member
//! declares before its body; the constants of an enum; the lines of packages and imports.
#![tactic(auto)]

mod heads;
mod homes;
mod laws;
mod lines;
mod modifiers;
mod parts;

pub use heads::{JMemberHead, JResult, JTypeHead};
pub use homes::JHome;
pub use laws::{one_constants, one_import, one_member, one_package, one_type_head};
pub use lines::{JArguments, JConstant, JConstants, JImport, JPackage, JStar};
pub use modifiers::{JModifier, ModifierKind};
pub use parts::{JBound, JFormals, JTypeList, JTypeParam, JTypeParams};
