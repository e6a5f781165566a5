//! What has no head of its own, from the tokens of a file, each token a piece: lists, blocks, and statements and members behind
//! their heads. The readers of parts are parameters, so it stands beside the readers of heads.
#![tactic(auto)]

mod asks;
mod blocks;
mod grammar;
mod lists;
mod members;
mod statements;
mod switches;
mod tokens;
mod tries;
mod types;

pub use asks::{Answer, Ask, Braced, Headed, Part, Rounded, Until};
pub use grammar::Grammar;
pub use members::{at_curly, bodied_end, declared_end};
pub use statements::{do_end, simple_end};
pub use tokens::{close, colon, open_round, semicolon, while_word};
pub use types::{ConstantsFound, TypeReader, typed};
