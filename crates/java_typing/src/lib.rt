//! When a typed expression of Java is well typed: a relation by the sections of JLS 4 and 15, which looks for no member and
//! chooses none.
#![tactic(auto)]

mod laws;

pub use laws::one_type;
