//! What statements hold besides other statements: declarations, what stands before a `;`, what stands in the
//! parentheses of a loop, the lock of a synchronized statement, the labels of a switch.
#![tactic(auto)]

mod declarations;
mod laws;
mod statements;

pub use declarations::{JDeclaration, JDeclarator, JValue};
pub use laws::{one_for, one_label, one_lock, one_simple};
pub use statements::{JForHead, JForStart, JLabelName, JLock, JSimple, JSwitchLabel};
