//! Statements, bodies, labels of a switch and members from the tokens of a file, each token a piece.
#![tactic(auto)]

mod bodies;
mod heads;
mod kinds;
mod labels;
mod members;
mod rules;
mod statements;
mod tops;
mod types;

pub use java_block_parser::{Answer, ConstantsFound};
pub use tops::{
    constants_list, past_bodied, past_constants, past_declared, top_bodied, top_declared,
};
