//! The tokens of a unit, written by a stack of what is still to be written, so that no unit is too deep for it.
#![tactic(auto)]

mod lists;
mod members;
mod pushing;
mod statements;
mod texts;
mod units;
mod work;

use lists::{open_cases, open_catches, open_groups, open_members, open_statements, open_text};
use members::open_member;
use pushing::{
    push, push_block, push_headed, push_keyword, push_mark, push_name, push_plain, push_test,
    push_text,
};
use statements::open_statement;
use texts::{
    constants_text, expression_text, for_text, lock_text, member_text, simple_text, switch_text,
    type_text, typed_text,
};
pub use units::spell;
use work::{Work, let_go};
