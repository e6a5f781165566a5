//! Methods and constructors of one signature.
#![tactic(auto)]

mod erasure;
mod laws;
mod signatures;

pub use erasure::Piece;
pub use laws::{same_signatures, second_signatures};
pub use signatures::{Signature, signature_faults};
