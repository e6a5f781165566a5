//! What a text of Java says of names, in the order in which it binds them: the scopes that open and close, what is
//! declared, and what is meant to be declared somewhere.
#![tactic(auto)]

mod exprs;
mod heads;
mod types;
mod uses;

pub use exprs::expression;
pub use heads::{for_head, initial, label, lock, simple};
pub use types::{declared_type, parameter, parameters, type_list, type_name};
pub use uses::{Naming, Sign, Use, Uses, Word, put_name, put_sign, put_word};
