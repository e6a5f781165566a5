//! From run to run.

ghost use Rattle.std.specs.Prelude.{◌≡◌, ◌<◌, ◌+◌, ◌^◌, length, IfOk};
ghost use Rattle.java_token_cursor.specs.Shown.{shown};
ghost use Rattle.java_tree.specs.Seen.{seen};
ghost use Rattle.java_type_parser.specs.Gives.{Gives, Always};
ghost use Rattle.java_fault_finder.specs.Walks.{Walked, HasRest, closed, end_read, pass_read, passed_found, room, state_seen};

use crate::first_run;
use crate::forms::form;
use crate::states::{Passed, Spot, State};
use j2k_base::NoMemory;
use java_body_cuts::raw;
use java_token_cursor::{Head, Pieces, first};
use java_tree::{JToken, Mark};
use java_type_parser::onward;
use std::alloc::Global;

/// What follows a `}` that comes first.
fn closed<'a>(pieces: Pieces<'a>) -> Option<Pieces<'a>>
    ensures { HasRest (closed (shown pieces.now)) result }
{
    match first(pieces) {
        Head::Mark(Mark::CloseCurly, _, rest) => Some(rest),
        _ => None,
    }
}

/// What follows the `}` of a type's body that comes first.
#[tactic(auto, using(crate::proofs::Passing::ends))]
fn ended<'a>(state: &State, pieces: Pieces<'a>) -> Option<Pieces<'a>>
    ensures { HasRest (end_read (state_seen state.now) (shown pieces.now)) result }
{
    match state.spot {
        Spot::Member if !state.around.is_empty() => closed(pieces),
        _ => None,
    }
}

/// What the run that begins the pieces does, and the pieces behind it.
#[tactic(auto, using(crate::proofs::Passing::reads))]
fn read<'a>(
    alloc: Global,
    state: &State,
    pieces: Pieces<'a>,
) -> Result<Option<(Passed, Pieces<'a>)>, NoMemory>
    requires { length pieces.now + room (state_seen state.now).spot < 2 ^ 32 }
    ensures { Gives passed_found Always (pass_read (state_seen state.now) (shown pieces.now)) result }
{
    if let Some(rest) = ended(state, pieces) {
        return Ok(Some((Passed::Ends, rest)));
    }
    let run = first_run(pieces);
    let Some(passed) = form(alloc, state, run.text)? else {
        return Ok(None);
    };
    Ok(Some((passed, run.rest)))
}

/// The number of the token that begins the first run which no form of its place spells; None where each run is
/// spelled.
#[tactic(auto, using(crate::proofs::Passing::walks))]
fn first_unspelled<'a>(alloc: Global, pieces: Pieces<'a>) -> Result<Option<usize>, NoMemory>
    requires { length pieces.now < 2 ^ 32 }
    ensures { IfOk result (λ r. Walked (shown pieces.now) r) }
{
    let mut state = State::start(alloc);
    let mut rest = pieces;
    while !rest.is_empty() {
        let Some((passed, behind)) = read(alloc, &state, rest)? else {
            return Ok(Some(pieces.len() - rest.len()));
        };
        state.pass(passed)?;
        rest = onward(behind);
    }
    Ok(None)
}

/// The number of the token of a file that begins the first run which no form of its place spells; None where each
/// run is spelled.
#[tactic(auto, using(crate::proofs::Passing::files))]
pub fn first_fault(alloc: Global, tokens: &[JToken]) -> Result<Option<usize>, NoMemory>
    requires { length tokens.now < 2 ^ 32 }
    ensures { IfOk result (λ r. Walked (seen tokens.now) r) }
{
    let pieces = raw(alloc, tokens)?;
    first_unspelled(alloc, pieces.as_slice())
}
