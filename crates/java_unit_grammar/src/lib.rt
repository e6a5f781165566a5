//! The trees of statements, members and units, and which tokens they spell.
#![tactic(auto)]

mod laws;
mod statements;
mod units;

pub use laws::{enough_steps, one_block, one_body, one_statement, one_unit};
pub use statements::{JBody, JCase, JCaseGroup, JCatch, JMember, JStatement};
pub use units::JUnit;
