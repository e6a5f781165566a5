//! What stands further on.

ghost use Rattle.std.specs.Prelude.{◌≡◌, ◌≤◌, ◌<◌, ◌+◌, ◌-◌, length};
ghost use Rattle.java_tree.specs.Trees as s;
ghost use Rattle.java_token_cursor.specs.Shown.{shown};
ghost use Rattle.java_expr_grammar.specs.Reading as r;
ghost use Rattle.java_type_parser.specs.Gives.{Turns, ends_first};

use crate::names::{after_dotted, onward};
use crate::types::{closes, primitive};
use java_token_cursor::{Head, Pieces, first};
use java_tree::{Keyword, Mark};

/// Whether the name of a primitive type comes first.
pub fn begins_primitive<'a>(pieces: Pieces<'a>) -> bool
    ensures { result ≡ r.begins_primitive (shown pieces.now) }
{
    match first(pieces) {
        Head::Word(word, _, _) => primitive(word).is_some(),
        _ => false,
    }
}

/// Whether what may follow a cast to a class comes first (JLS 15.16).
pub fn begins_operand<'a>(pieces: Pieces<'a>) -> bool
    ensures { result ≡ r.begins_operand (shown pieces.now) }
{
    match first(pieces) {
        Head::Id(_, _, _) | Head::Literal(_, _, _) => true,
        Head::Mark(Mark::OpenRound | Mark::Not | Mark::Tilde, _, _) => true,
        Head::Word(Keyword::This | Keyword::Super | Keyword::New, _, _) => true,
        _ => false,
    }
}

/// Whether `->` comes first, with a block behind it or not.
pub fn begins_arrow<'a>(pieces: Pieces<'a>) -> bool
    ensures { result ≡ r.begins_arrow (shown pieces.now) }
{
    match first(pieces) {
        Head::Mark(Mark::Arrow, _, _) | Head::Block(_, _, _) => true,
        _ => false,
    }
}

/// Whether `+`, `-`, `++` or `--` comes first.
pub fn begins_sign<'a>(pieces: Pieces<'a>) -> bool
    ensures { result ≡ s.begins_sign (shown pieces.now) }
{
    match first(pieces) {
        Head::Mark(Mark::Plus | Mark::Minus | Mark::PlusPlus | Mark::MinusMinus, _, _) => true,
        _ => false,
    }
}

/// A turn of the search for the `)`.
pub enum Turn<'a> {
    Done(Pieces<'a>),
    /// How many brackets are open, and the pieces after this one.
    Go(usize, Pieces<'a>),
}

#[tactic(auto, unfolding(java_expr_grammar::specs::Reading::after_close))]
fn take_turn<'a>(depth: usize, pieces: Pieces<'a>) -> Turn<'a>
    requires { depth < usize.MAX }
    ensures { Turns depth pieces.now result }
{
    match first(pieces) {
        Head::End => Turn::Done(pieces),
        Head::Mark(Mark::OpenRound, _, rest) => Turn::Go(depth + 1, rest),
        Head::Mark(Mark::CloseRound, _, rest) | Head::Body(_, _, rest) => {
            if depth == 0 {
                Turn::Done(rest)
            } else {
                Turn::Go(depth - 1, rest)
            }
        }
        Head::Mark(_, _, rest) => Turn::Go(depth, rest),
        Head::Id(_, _, rest) => Turn::Go(depth, rest),
        Head::Word(_, _, rest) => Turn::Go(depth, rest),
        Head::Literal(_, _, rest) => Turn::Go(depth, rest),
        Head::Block(_, _, rest) => Turn::Go(depth, rest),
    }
}

/// What follows the `)` that has no `(` before it.
#[tactic(auto, unfolding(java_expr_grammar::specs::Reading::after_close))]
pub fn after_close<'a>(pieces: Pieces<'a>) -> Pieces<'a>
    ensures { shown result.now ≡ r.after_close 0 (shown pieces.now) }
{
    let mut depth = 0;
    let mut rest = pieces;
    for _turn in 0..pieces.len() {
        match take_turn(depth, rest) {
            Turn::Done(after) => return after,
            Turn::Go(now, after) => {
                depth = now;
                rest = onward(after);
            }
        }
    }
    rest
}

/// Whether the pieces behind a `(` begin a cast; `after` are those behind its `)`.
pub fn is_cast<'a>(pieces: Pieces<'a>, after: Pieces<'a>) -> bool
    requires { shown after.now ≡ r.after_close 0 (shown pieces.now) }
    ensures { result ≡ r.is_cast (shown pieces.now) }
{
    begins_primitive(pieces) || begins_operand(after)
}

fn ends_first<'a>(pieces: Pieces<'a>) -> bool
    ensures { result ≡ ends_first (shown pieces.now) }
{
    match first(pieces) {
        Head::Mark(Mark::Comma | Mark::CloseRound, _, _) => true,
        _ => false,
    }
}

/// Whether a name with a comma or a `)` behind it comes first.
#[tactic(auto, using(crate::proofs::Rules::names_is))]
pub fn begins_names<'a>(pieces: Pieces<'a>) -> bool
    ensures { result ≡ r.begins_names (shown pieces.now) }
{
    match first(pieces) {
        Head::Id(_, _, rest) => ends_first(rest),
        _ => false,
    }
}

fn begins_inferred_by<'a>(pieces: Pieces<'a>) -> bool
    ensures { result ≡ r.begins_inferred_by (shown pieces.now) }
{
    match first(pieces) {
        Head::Mark(Mark::Less, _, rest) => closes(rest).is_some(),
        _ => false,
    }
}

/// Whether a name with `<` and `>` behind it comes first.
pub fn begins_inferred<'a>(pieces: Pieces<'a>) -> bool
    ensures { result ≡ r.begins_inferred (shown pieces.now) }
{
    match first(pieces) {
        Head::Id(_, _, rest) => begins_inferred_by(after_dotted(rest)),
        _ => false,
    }
}
