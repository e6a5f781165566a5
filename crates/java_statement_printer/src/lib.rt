//! The tokens of what statements hold besides other statements, with each body as one.
#![tactic(auto)]

mod statements;

pub use statements::{put_declaration, put_for, put_lock, put_simple, put_switch};
