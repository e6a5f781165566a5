// What stands at a place among letters, and whether type arguments begin there.

ghost use Rattle.std.specs.Prelude.{◌≡◌, ◌+◌, ◌≤◌, ◌<◌, length, slice_get, drop, ℕ, true, false};
ghost use Rattle.kotlin_grammar.specs.Ahead.{
  is_plain as is_plain_of,
  is_semicolon as is_semicolon_of,
  is_question as is_question_of,
  is_round as is_round_of,
  is_curly as is_curly_of,
  stands_by,
  opens_by,
  is_less,
  is_at,
  is_arrow,
  is_round,
  is_curly,
  step as step_of,
  arguments_follow as arguments_follow_of,
  arguments_ahead as arguments_ahead_of,
};
ghost use Rattle.kotlin_grammar.specs.declared.ahead.Spot.TheVariants as at;
ghost use Rattle.kotlin_kinds.specs.Turns.{TurnBy, TurnIs, TurnThere, Few};

use grammar::Stack;
use kotlin_grammar::{Kind, Letter, Spot, Step, Term};
use kotlin_tables::accepts;
use kotlin_tree::Gap;

/// What a letter does to a look ahead through type arguments.
#[derive(Clone, Copy)]
pub enum Turn {
    Go(Spot, usize),
    Ended,
    Out,
}

pub fn is_plain(gap: Gap) -> bool
    ensures { result ≡ is_plain_of gap }
{
    match gap {
        Gap::Plain => true,
        Gap::Line => false,
        Gap::Semicolon => false,
    }
}

pub fn is_semicolon(gap: Gap) -> bool
    ensures { result ≡ is_semicolon_of gap }
{
    match gap {
        Gap::Plain => false,
        Gap::Line => false,
        Gap::Semicolon => true,
    }
}

fn is_question_kind(kind: Kind) -> bool
    ensures { result ≡ is_question_of kind }
{
    match kind {
        Kind::Question => true,
        _ => false,
    }
}

fn is_round_kind(kind: Kind) -> bool
    ensures { result ≡ is_round_of kind }
{
    match kind {
        Kind::OpenRound => true,
        _ => false,
    }
}

fn is_curly_kind(kind: Kind) -> bool
    ensures { result ≡ is_curly_of kind }
{
    match kind {
        Kind::OpenCurly => true,
        Kind::OpenParameters => true,
        _ => false,
    }
}

pub fn less_stands(letters: &Stack<Letter>) -> bool
    ensures { result ≡ stands_by is_less (slice_get letters.now 0) }
{
    match letters.peek(0) {
        None => false,
        Some(letter) => is_plain(letter.token.gap) && matches!(letter.kind, Kind::Less),
    }
}

pub fn at_stands(letters: &Stack<Letter>) -> bool
    ensures { result ≡ stands_by is_at (slice_get letters.now 0) }
{
    match letters.peek(0) {
        None => false,
        Some(letter) => is_plain(letter.token.gap) && matches!(letter.kind, Kind::At),
    }
}

pub fn arrow_stands(letters: &Stack<Letter>) -> bool
    ensures { result ≡ stands_by is_arrow (slice_get letters.now 0) }
{
    match letters.peek(0) {
        None => false,
        Some(letter) => is_plain(letter.token.gap) && matches!(letter.kind, Kind::Arrow),
    }
}

pub fn round_stands(letters: &Stack<Letter>) -> bool
    ensures { result ≡ stands_by is_round (slice_get letters.now 0) }
{
    match letters.peek(0) {
        None => false,
        Some(letter) => is_plain(letter.token.gap) && is_round_kind(letter.kind),
    }
}

pub fn curly_stands(letters: &Stack<Letter>, place: usize) -> bool
    ensures { result ≡ stands_by is_curly (slice_get letters.now place) }
{
    match letters.peek(place) {
        None => false,
        Some(letter) => is_plain(letter.token.gap) && is_curly_kind(letter.kind),
    }
}

/// Whether `(`, or `{` with or without a `?` before it, stands at the place.
fn opens_at(letters: &Stack<Letter>, place: usize) -> bool
    requires { place < 4294967297 }
    ensures { result ≡ opens_by (slice_get letters.now place) (slice_get letters.now (place + 1)) }
{
    match letters.peek(place) {
        None => false,
        Some(letter) => {
            is_plain(letter.token.gap)
                && (if is_question_kind(letter.kind) {
                    curly_stands(letters, place + 1)
                } else {
                    is_round_kind(letter.kind) || is_curly_kind(letter.kind)
                })
        }
    }
}

fn at_type(kind: Kind) -> Step
    ensures { result ≡ step_of at.Type kind }
{
    if accepts(Term::AnyName, kind) {
        Step::To(Spot::Name)
    } else {
        Step::Out
    }
}

fn at_name(kind: Kind) -> Step
    ensures { result ≡ step_of at.Name kind }
{
    match kind {
        Kind::Dot => Step::To(Spot::Type),
        Kind::Less => Step::Open,
        Kind::Question => Step::To(Spot::Asked),
        Kind::Comma => Step::To(Spot::Type),
        Kind::Greater => Step::Close,
        _ => Step::Out,
    }
}

fn at_closed(kind: Kind) -> Step
    ensures { result ≡ step_of at.Closed kind }
{
    match kind {
        Kind::Question => Step::To(Spot::Asked),
        Kind::Comma => Step::To(Spot::Type),
        Kind::Greater => Step::Close,
        _ => Step::Out,
    }
}

fn at_asked(kind: Kind) -> Step
    ensures { result ≡ step_of at.Asked kind }
{
    match kind {
        Kind::Comma => Step::To(Spot::Type),
        Kind::Greater => Step::Close,
        _ => Step::Out,
    }
}

fn step_at(spot: Spot, kind: Kind) -> Step
    ensures { result ≡ step_of spot kind }
{
    match spot {
        Spot::Type => at_type(kind),
        Spot::Name => at_name(kind),
        Spot::Closed => at_closed(kind),
        Spot::Asked => at_asked(kind),
    }
}

fn turned(step: Step, depth: usize) -> Turn
    requires { depth < 4294967296 }
    ensures is { TurnBy step depth result }
    ensures few { Few depth result }
{
    match step {
        Step::To(spot) => Turn::Go(spot, depth),
        Step::Open => Turn::Go(Spot::Type, depth + 1),
        Step::Close => {
            if depth == 0 {
                Turn::Ended
            } else {
                Turn::Go(Spot::Closed, depth - 1)
            }
        }
        Step::Out => Turn::Out,
    }
}

fn turned_at(spot: Spot, depth: usize, letter: &Letter) -> Turn
    requires { depth < 4294967296 }
    ensures is { TurnIs spot depth letter.now result }
    ensures few { Few depth result }
{
    if is_semicolon(letter.token.gap) {
        Turn::Out
    } else {
        turned(step_at(spot, letter.kind), depth)
    }
}

fn turned_there(letters: &Stack<Letter>, place: usize, spot: Spot, depth: usize) -> Turn
    requires { depth < 4294967296 }
    ensures is { TurnThere spot depth (slice_get letters.now place) result }
    ensures few { Few depth result }
{
    match letters.peek(place) {
        None => Turn::Out,
        Some(letter) => turned_at(spot, depth, letter),
    }
}

/// Whether type arguments stand behind the first letter, which is a `<`.
pub fn arguments_ahead(letters: &Stack<Letter>) -> bool
    requires { length letters.now < 4294967296 }
    ensures { result ≡ arguments_ahead_of letters.now }
{
    let mut spot = Spot::Type;
    let mut depth: usize = 0;
    for i in 1..letters.len() {
        match turned_there(letters, i, spot, depth) {
            Turn::Go(next, deep) => {
                spot = next;
                depth = deep;
            }
            Turn::Ended => return opens_at(letters, i + 1),
            Turn::Out => return false,
        }
    }
    false
}
