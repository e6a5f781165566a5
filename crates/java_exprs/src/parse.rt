//! The one call.

ghost use Rattle.std.specs.Prelude.{◌≡◌, ◌≤◌, length, IfOk, MatchOption};
ghost use Rattle.java_tree.specs.Seen.{between};
ghost use Rattle.java_tree.specs.Seen as t;
ghost use Rattle.java_tree.specs.Trees.{JSpells, JSpellsNone};
ghost use Rattle.java_token_cursor.specs.Shown.{shown};

use crate::climb::read;
use j2k_base::NoMemory;
use java_token_cursor::{Pieces, pieces};
use java_tree::{JExpr, MAX_DEPTH, Tokens};
use java_type_parser::let_go;
use std::alloc::Global;

/// The expression that the pieces spell, no deeper than 200. Pieces spell at most one.
#[tactic(auto, using(crate::proofs::Parsed::parsed))]
fn parse_pieces(alloc: Global, pieces: Pieces<'_>) -> Result<Option<JExpr>, NoMemory>
    ensures { IfOk result (λ r. MatchOption r (JSpellsNone (shown pieces.now)) (λ e. JSpells e (shown pieces.now))) }
{
    let Some((found, rest)) = read(alloc, pieces, MAX_DEPTH, 1)? else {
        return Ok(None);
    };
    if rest.is_empty() {
        Ok(Some(found.tree.into_inner()))
    } else {
        let_go(found);
        Ok(None)
    }
}

/// The expression that the tokens `from` to before `to` spell, no deeper than 200; None where no
/// tree does. Tokens spell at most one.
pub fn parse_expr(
    alloc: Global,
    tokens: &Tokens,
    from: u32,
    to: u32,
) -> Result<Option<JExpr>, NoMemory>
    requires order { from ≤ to }
    requires within { to ≤ length tokens.now.list }
    ensures { IfOk result (λ r. MatchOption r (JSpellsNone (t.pieces to (between from to tokens.now.list))) (λ e. JSpells e (t.pieces to (between from to tokens.now.list)))) }
{
    let part = &tokens.list.as_slice()[from as usize..to as usize];
    let found = pieces(alloc, part, to)?;
    parse_pieces(alloc, found.as_slice())
}
