//! The tokens of an expression.
#![tactic(auto)]

mod expanding;
mod writing;
mod written;

pub use expanding::{copied, put_mark, spell};
pub use writing::{
    closing, put, put_args, put_brackets, put_expr, put_final, put_keyword, put_list,
    put_qualified, put_trailing, put_type, put_typed, put_types, put_word, typed_list,
};
pub use written::Written;
