//! The run that begins pieces.

ghost use Rattle.std.specs.Prelude.{◌≡◌, ◌≤◌, ◌<◌, ◌+◌, length, IfSome};
ghost use Rattle.java_token_cursor.specs.Shown.{shown};
ghost use Rattle.java_fault_grammar.specs.Runs.{run};
ghost use Rattle.java_fault_finder.specs.Ends.{KindFound, end_seen, run_seen, Steps};

use crate::places::{End, Kind, Place, Turn, turned};
use java_token_cursor::{Head, Pieces, first};
use java_tree::{Keyword, Mark};
use java_type_parser::onward;

/// The run that begins pieces, what ends it, and the pieces behind it.
#[derive(Clone, Copy)]
pub struct Run<'a> {
    pub text: Pieces<'a>,
    pub end: End,
    pub rest: Pieces<'a>,
}

/// What the first piece is in a run, and the pieces behind it.
fn first_kind<'a>(pieces: Pieces<'a>) -> Option<(Kind, Pieces<'a>)>
    ensures found { KindFound pieces.now result }
    ensures shorter { IfSome result (λ x. length pieces.now ≡ length x.1.now + 1) }
{
    match first(pieces) {
        Head::End => None,
        Head::Mark(Mark::OpenCurly, _, rest) => Some((Kind::OpenCurly, rest)),
        Head::Mark(Mark::CloseCurly, _, rest) => Some((Kind::CloseCurly, rest)),
        Head::Mark(Mark::OpenRound | Mark::OpenSquare, _, rest) => Some((Kind::Opens, rest)),
        Head::Mark(Mark::CloseRound | Mark::CloseSquare, _, rest) => Some((Kind::Closes, rest)),
        Head::Mark(Mark::Semicolon, _, rest) => Some((Kind::Semicolon, rest)),
        Head::Mark(Mark::Assign, _, rest) => Some((Kind::Assign, rest)),
        Head::Mark(_, _, rest) => Some((Kind::Other, rest)),
        Head::Word(Keyword::Class | Keyword::Interface | Keyword::Enum, _, rest) => {
            Some((Kind::Declares, rest))
        }
        Head::Word(_, _, rest) => Some((Kind::Other, rest)),
        Head::Id(_, _, rest) => Some((Kind::Other, rest)),
        Head::Literal(_, _, rest) => Some((Kind::Other, rest)),
        Head::Block(_, _, rest) => Some((Kind::Other, rest)),
        Head::Body(_, _, rest) => Some((Kind::Other, rest)),
    }
}

/// What the first piece does.
enum Step<'a> {
    /// The run goes on at this place, with these pieces.
    On(Place, Pieces<'a>),
    /// It ends with the piece.
    Stop(End),
    /// It ends before the piece, or there is none.
    Left,
}

#[tactic(auto, using(crate::proofs::Runs::steps))]
fn next_step<'a>(place: Place, pieces: Pieces<'a>) -> Step<'a>
    requires { place.depth < usize.MAX }
    ensures { Steps place pieces.now result }
{
    let Some((kind, rest)) = first_kind(pieces) else {
        return Step::Left;
    };
    match turned(place, kind) {
        Turn::On(now) => Step::On(now, rest),
        Turn::Stop(end) => Step::Stop(end),
        Turn::Left => Step::Left,
    }
}

/// How long the run is, and what ends it.
#[tactic(auto, using(crate::proofs::Runs::steps))]
fn measured<'a>(pieces: Pieces<'a>) -> (usize, End)
    ensures long { result.0 ≡ length (run (shown pieces.now)).text }
    ensures end { end_seen result.1 ≡ (run (shown pieces.now)).end }
    ensures within { result.0 ≤ length pieces.now }
{
    let mut place = Place {
        depth: 0,
        ends: false,
        is_type: false,
        has_value: false,
    };
    let mut rest = pieces;
    for count in 0..pieces.len() {
        match next_step(place, rest) {
            Step::On(now, after) => {
                place = now;
                rest = onward(after);
            }
            Step::Stop(end) => return (count + 1, end),
            Step::Left => return (count, End::Level),
        }
    }
    (pieces.len(), End::Level)
}

/// The run that begins the pieces. It ends with a `;`, with the `{` of the body of a type, with the `}` of another `{`
/// before which no `=` stood, or where its level does.
#[tactic(auto, using(crate::proofs::Runs::run_split))]
pub fn first_run<'a>(pieces: Pieces<'a>) -> Run<'a>
    ensures { run_seen result ≡ run (shown pieces.now) }
{
    let (count, end) = measured(pieces);
    let (text, rest) = pieces.split_at(count);
    Run { text, end, rest }
}
