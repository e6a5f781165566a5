//! Tokens with the bodies among them taken as one, and the tokens that stand first.
#![tactic(auto)]

mod bodies;
mod head;
mod laws;
mod piece;

pub use bodies::pieces;
pub use head::{
    Head, arrow, braces_end, close, close_square, colon, comma, copied, copied_literal, dot, first,
    inner_comma, open_curly, open_round,
};
pub use laws::nothing_lost;
pub use piece::{Piece, Pieces};
