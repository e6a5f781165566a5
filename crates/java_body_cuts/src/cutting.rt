//! Cutting a head off what follows it.

ghost use Rattle.std.specs.Prelude.{◌≡◌, ◌≤◌, ◌<◌, ◌^◌, ◌++◌, length, IfOk};
ghost use Rattle.java_token_cursor.specs.Shown.{shown};
ghost use Rattle.java_type_parser.specs.Gives.{Gives, Always};
ghost use Rattle.java_unit_grammar.specs.Cutting as c;
ghost use Rattle.java_body_cuts.specs.Cuts.{Steps, all_shown, cut_seen, inside_shown, stop_seen};

use crate::bodies::behind;
use crate::parting::parted;
use crate::stops::{Stop, is_raw, turned};
use j2k_base::NoMemory;
use java_token_cursor::{Piece, Pieces};
use java_type_parser::onward;
use std::alloc::Global;

/// A head with its bodies as spans, the pieces of each body, and what follows the head.
#[derive(Drop)]
pub struct CutFound<'a> {
    pub text: Vec<Piece<'a>>,
    pub bodies: Vec<Pieces<'a>>,
    pub rest: Pieces<'a>,
}

/// A piece of a head, with the body that counts with it.
#[derive(Clone, Copy)]
struct Next<'a> {
    /// How many are open behind it.
    depth: usize,
    piece: Piece<'a>,
    inside: Option<Pieces<'a>>,
    rest: Pieces<'a>,
}

#[derive(Clone, Copy)]
enum Step<'a> {
    /// The head ends before the pieces.
    Ends,
    /// There is no end, or a body counts with the piece already.
    Fails,
    Goes(Next<'a>),
}

#[tactic(auto, using(crate::proofs::Steps::steps))]
fn take_step<'a>(stop: Stop, depth: usize, pieces: Pieces<'a>, end: u32) -> Step<'a>
    requires deep { depth < usize.MAX }
    requires within { length pieces.now ≤ end }
    ensures { Steps (stop_seen stop) end depth pieces.now result }
{
    let Some((piece, rest)) = parted(pieces) else {
        return Step::Fails;
    };
    let Some(depth) = turned(piece, stop, depth) else {
        return Step::Ends;
    };
    if !is_raw(piece) {
        return Step::Fails;
    }
    match behind(piece, rest, end) {
        Some(found) => Step::Goes(Next {
            depth,
            piece: found.piece,
            inside: Some(found.body.inside),
            rest: found.body.rest,
        }),
        None => Step::Goes(Next {
            depth,
            piece,
            inside: None,
            rest,
        }),
    }
}

#[tactic(auto, using(crate::proofs::Steps::gathered))]
fn put_body<'a>(bodies: &mut Vec<Pieces<'a>>, inside: Option<Pieces<'a>>) -> Result<(), NoMemory>
    ensures { IfOk result (λ u. all_shown bodies.new.items ≡ all_shown bodies.old.items ++ inside_shown inside.entry) }
{
    if let Some(inside) = inside {
        bodies.push(inside)?;
    }
    Ok(())
}

/// The pieces up to what ends the head, with each body directly behind a `->` or a `)` taken as one
/// with it (JLS 15.9.5, 15.27.2). None where nothing ends the head, or where a body counts with a
/// piece before the end already.
#[tactic(auto, using(crate::proofs::Steps::cuts))]
pub fn cut<'a>(
    alloc: Global,
    stop: Stop,
    pieces: Pieces<'a>,
) -> Result<Option<CutFound<'a>>, NoMemory>
    requires { length pieces.now < 2 ^ 32 }
    ensures { Gives cut_seen Always (c.cut (stop_seen stop) (shown pieces.now)) result }
{
    let end = pieces.len() as u32;
    let mut text = Vec::new(alloc);
    let mut bodies = Vec::new(alloc);
    let mut depth = 0;
    let mut rest = pieces;
    for _turn in 0..pieces.len() {
        match take_step(stop, depth, rest, end) {
            Step::Ends => return Ok(Some(CutFound { text, bodies, rest })),
            Step::Fails => return Ok(None),
            Step::Goes(next) => {
                text.push(next.piece)?;
                put_body(&mut bodies, next.inside)?;
                depth = next.depth;
                rest = onward(next.rest);
            }
        }
    }
    Ok(None)
}
