//! What comes first.

ghost use Rattle.std.specs.Prelude.{◌≡◌};
ghost use Rattle.java_token_cursor.specs.Heads.{Finds};
ghost use Rattle.java_token_cursor.specs.Shown.{shown};
ghost use Rattle.java_expr_grammar.specs.Reading as r;
ghost use Rattle.java_member_grammar.specs.Reading as m;
ghost use Rattle.java_member_parser.specs.Steps.{only_static, star_at, starred};

use java_declaration_parser::at_end;
use java_member_grammar::JStar;
use java_token_cursor::{Head, Pieces, comma, dot, first, open_round};
use java_tree::{Keyword, Mark, Position};

/// The `>` that comes first, and whether another `>` or a `=` stands directly behind it.
pub fn closes<'a>(pieces: Pieces<'a>) -> Option<((bool, Position), Pieces<'a>)>
    ensures { Finds (r.closes (shown pieces.now)) result }
{
    match first(pieces) {
        Head::Mark(Mark::Greater, at, rest) => Some(((false, at), rest)),
        Head::Mark(Mark::GreaterJoined, at, rest) => Some(((true, at), rest)),
        _ => None,
    }
}

/// Whether a name with a `(` behind it comes first.
#[tactic(auto, using(crate::proofs::Rules::looks))]
pub fn begins_call<'a>(pieces: Pieces<'a>) -> bool
    ensures { result ≡ m.begins_call (shown pieces.now) }
{
    match first(pieces) {
        Head::Id(_, _, rest) => open_round(rest).is_some(),
        _ => false,
    }
}

/// Whether a name comes first.
pub fn begins_id<'a>(pieces: Pieces<'a>) -> bool
    ensures { result ≡ m.begins_id (shown pieces.now) }
{
    match first(pieces) {
        Head::Id(_, _, _) => true,
        _ => false,
    }
}

/// A comma with a name behind it.
#[tactic(auto, using(crate::proofs::Rules::looks))]
pub fn comma_name<'a>(pieces: Pieces<'a>) -> Option<(Position, Pieces<'a>)>
    ensures { Finds (m.comma_name (shown pieces.now)) result }
{
    let (at, rest) = comma(pieces)?;
    if begins_id(rest) {
        Some((at, rest))
    } else {
        None
    }
}

/// `static`, where it is all.
#[tactic(auto, using(crate::proofs::Rules::ends))]
pub fn only_static<'a>(pieces: Pieces<'a>) -> Option<Position>
    ensures { result ≡ only_static (shown pieces.now) }
{
    match first(pieces) {
        Head::Word(Keyword::Static, at, rest) => { if at_end(rest) { Some(at) } else { None } }
        _ => None,
    }
}

fn starred<'a>(dot: Position, pieces: Pieces<'a>) -> Option<(JStar, Pieces<'a>)>
    ensures { Finds (starred dot (shown pieces.now)) result }
{
    match first(pieces) {
        Head::Mark(Mark::Star, at, rest) => Some((JStar { dot, at }, rest)),
        _ => None,
    }
}

fn star_at<'a>(pieces: Pieces<'a>) -> Option<(JStar, Pieces<'a>)>
    ensures { Finds (star_at (shown pieces.now)) result }
{
    let (dot, rest) = dot(pieces)?;
    starred(dot, rest)
}

/// A dot and a `*` where they come first, and what follows.
#[tactic(auto, using(crate::proofs::Rules::looks))]
pub fn star_first<'a>(pieces: Pieces<'a>) -> (Option<JStar>, Pieces<'a>)
    ensures { (result.0, shown result.1.now) ≡ m.star_by (shown pieces.now) }
{
    match star_at(pieces) {
        Some((star, rest)) => (Some(star), rest),
        None => (None, pieces),
    }
}
