//! The types of operators by those of their operands: unary, binary and compound operators, the conversions of operands, and
//! the two arms of a conditional. No scope and no tree is known here.
#![tactic(auto)]

mod binary;
mod choices;
mod kinds;
mod laws;
mod steps;
mod ways;

pub use binary::{binary_way, compound_way, is_instance_test, way_type};
pub use choices::{Choice, choice_type, choose};
pub use kinds::unary_way;
pub use laws::{operators_have_types, promotion_is_least};
pub use steps::{Steps, operand_steps, stored_steps};
pub use ways::Way;
