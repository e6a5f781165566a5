//! Members that are no types, and the constants of enums, of which all pieces are.

ghost use Rattle.std.specs.Prelude.{◌≡◌, ◌<◌, ◌^◌, is_some, IfOk, length};
ghost use Rattle.java_token_cursor.specs.Shown.{shown};
ghost use Rattle.java_modifier_rules.specs.Fits.{owner_seen};
ghost use Rattle.java_fault_grammar.specs.Forms as f;
ghost use Rattle.java_fault_finder.specs.Walks.{lone_end, are_constants};

use j2k_base::NoMemory;
use java_body_cuts::{close_curly, is_end};
use java_body_parser::{past_bodied, past_constants, past_declared};
use java_modifier_rules::Owner;
use java_token_cursor::Pieces;
use std::alloc::Global;

/// Whether the pieces are a member of that owner with a `;` behind it.
#[tactic(auto, using(crate::proofs::Spelled::spelled))]
pub fn is_declared<'a>(
    alloc: Global,
    owner: Owner<'_>,
    pieces: Pieces<'a>,
) -> Result<bool, NoMemory>
    requires { length pieces.now < 2 ^ 32 }
    ensures { IfOk result (λ b. b ≡ is_some (f.declared_form (owner_seen owner.entry) (shown pieces.now))) }
{
    match past_declared(alloc, pieces, owner)? {
        Some(rest) => Ok(is_end(rest)),
        None => Ok(false),
    }
}

/// Whether the pieces are a member of that owner with a block behind it.
#[tactic(auto, using(crate::proofs::Spelled::spelled))]
pub fn is_bodied<'a>(alloc: Global, owner: Owner<'_>, pieces: Pieces<'a>) -> Result<bool, NoMemory>
    requires { length pieces.now < 2 ^ 32 }
    ensures { IfOk result (λ b. b ≡ is_some (f.bodied_form (owner_seen owner.entry) (shown pieces.now))) }
{
    match past_bodied(alloc, pieces, owner)? {
        Some(rest) => Ok(is_end(rest)),
        None => Ok(false),
    }
}

/// Whether a `}` is all.
#[tactic(auto, using(crate::proofs::Spelled::lone))]
fn lone_end<'a>(pieces: Pieces<'a>) -> bool
    ensures { result ≡ lone_end (shown pieces.now) }
{
    match close_curly(pieces) {
        Some((_, rest)) => is_end(rest),
        None => false,
    }
}

/// Whether the pieces are the constants of an enum with a `}` behind them.
#[tactic(auto, using(crate::proofs::Spelled::spelled))]
pub fn are_constants<'a>(alloc: Global, pieces: Pieces<'a>) -> Result<bool, NoMemory>
    requires { length pieces.now < 2 ^ 32 }
    ensures { IfOk result (λ b. b ≡ are_constants (shown pieces.now)) }
{
    match past_constants(alloc, pieces)? {
        Some(rest) => Ok(lone_end(rest)),
        None => Ok(false),
    }
}
