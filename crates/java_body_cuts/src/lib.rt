//! Heads cut off what follows them, over the tokens of a file of which each is a piece of its own.
#![tactic(auto)]

mod ahead;
mod bodies;
mod cutting;
mod parting;
mod stops;

pub use ahead::{
    before_curly, begins_case, begins_catch, begins_close, begins_import, begins_package,
    catch_word, close_curly, ends_group, goes_declared, goes_type, is_end, line, semicolon,
    semicolon_end, spans, while_word,
};
pub use cutting::{CutFound, cut};
pub use java_token_cursor::colon;
pub use parting::raw;
pub use stops::Stop;
