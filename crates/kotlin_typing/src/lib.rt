//! The typing of the Kotlin profile, by definitions and laws: the type of each expression, and what is noted of a part that no
//! case of the typing takes.
#![tactic(auto)]

pub mod laws;
mod scope;
mod tables;

pub use scope::{KAround, KLocal, KPart, KReturns, KScope, KStore};
pub use tables::{KCallable, KClassName, KFace, KHolder, KProperty, KTables, KTypeVariable};
