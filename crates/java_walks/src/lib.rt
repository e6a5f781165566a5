//! What is told of all parts of Java's typed trees: of expressions, of statements, of classes.
#![tactic(auto)]

mod laws;

pub use laws::{walks_see_all_nodes, walks_see_all_statements, walks_see_whole_units};
