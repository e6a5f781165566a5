// Whether names and `->` stand ahead.

ghost use Rattle.std.specs.Prelude.{◌≡◌, ◌<◌, ◌≤◌, ◌+◌, length, slice_get, drop, true, false};
ghost use Rattle.kotlin_grammar.specs.Ahead.{names_follow as names_follow_of};
ghost use Rattle.kotlin_kinds.specs.Turns.{NamesBy, NamesIs, NamesThere};

use crate::spots::is_semicolon;
use grammar::Stack;
use kotlin_grammar::{Kind, Letter, Term};
use kotlin_tables::accepts;

/// What a letter does to a look ahead through names.
#[derive(Clone, Copy)]
pub enum NamesTurn {
    Go(bool),
    Yes,
    No,
}

fn after_name(kind: Kind) -> NamesTurn
    ensures { NamesBy true kind result }
{
    match kind {
        Kind::Comma => NamesTurn::Go(false),
        Kind::Arrow => NamesTurn::Yes,
        _ => NamesTurn::No,
    }
}

fn names_by(was: bool, kind: Kind) -> NamesTurn
    ensures { NamesBy was kind result }
{
    match was {
        true => after_name(kind),
        false => {
            if accepts(Term::Name, kind) {
                NamesTurn::Go(true)
            } else {
                NamesTurn::No
            }
        }
    }
}

fn names_turn(was: bool, letter: &Letter) -> NamesTurn
    ensures { NamesIs was letter.now result }
{
    if is_semicolon(letter.token.gap) {
        NamesTurn::No
    } else {
        names_by(was, letter.kind)
    }
}

fn names_there(letters: &Stack<Letter>, place: usize, was: bool) -> NamesTurn
    ensures { NamesThere was (slice_get letters.now place) result }
{
    match letters.peek(place) {
        None => NamesTurn::No,
        Some(letter) => names_turn(was, letter),
    }
}

/// Whether names with commas between, and then `->`, stand first.
pub fn names_follow(letters: &Stack<Letter>) -> bool
    ensures { result ≡ names_follow_of false letters.now }
{
    let mut was = false;
    for i in 0..letters.len() {
        match names_there(letters, i, was) {
            NamesTurn::Go(now) => was = now,
            NamesTurn::Yes => return true,
            NamesTurn::No => return false,
        }
    }
    false
}
