//! Members that stand in no expression, whose nested readers are those of all steps.

ghost use Rattle.std.specs.Prelude.{◌≡◌, ◌≤◌, ◌<◌, ◌^◌, suc, length};
ghost use Rattle.java_tree.specs.Trees.{max_depth};
ghost use Rattle.java_unit_grammar.specs.Standing.{steps, top_levels};
ghost use Rattle.java_unit_grammar.specs.Reading as r;
ghost use Rattle.java_token_cursor.specs.Shown.{shown};
ghost use Rattle.java_type_parser.specs.Gives.{Always, Gives};
ghost use Rattle.java_modifier_rules.specs.Fits.{owner_seen};
ghost use Rattle.java_block_parser.specs.Asks.{Shorter, constants_found, found};
ghost use Rattle.java_body_parser.specs.Tops.{past, past_found};

use crate::bodies::part;
use crate::rules::{Depths, Rules};
use j2k_base::NoMemory;
use java_block_parser::{Answer, ConstantsFound, Grammar};
use java_modifier_rules::Owner;
use java_token_cursor::Pieces;
use java_tree::MAX_DEPTH;
use java_type_parser::let_go;
use java_unit_grammar::JMember;
use sqlite_items::Boxed;
use std::alloc::Global;

/// As many steps as that depth leaves room for.
const STEPS: usize = 602;

/// A member that ends in a `;`, with types no deeper than 200 and values no deeper than that.
#[tactic(auto, unfolding(java_unit_grammar::specs::Standing::steps))]
pub fn top_declared<'a, 'b>(
    alloc: Global,
    pieces: Pieces<'a>,
    owner: Owner<'b>,
) -> Answer<'a, Boxed<JMember>>
    requires { length pieces.now < 2 ^ 32 }
    ensures { Gives found (Shorter pieces.now) (r.declared (r.readers steps) max_depth (suc max_depth) 199 top_levels (owner_seen owner.entry) (shown pieces.now)) result }
{
    let depths = Depths {
        types: MAX_DEPTH,
        values: MAX_DEPTH + 1,
        holder: MAX_DEPTH - 1,
        is_top: true,
    };
    Rules {
        parts: Grammar {
            alloc,
            depth: MAX_DEPTH,
            steps: STEPS,
            read: part,
        },
    }
    .declared(pieces, owner, depths)
}

/// A member that ends in a block no deeper than 200.
#[tactic(auto, unfolding(java_unit_grammar::specs::Standing::steps))]
pub fn top_bodied<'a, 'b>(
    alloc: Global,
    pieces: Pieces<'a>,
    owner: Owner<'b>,
) -> Answer<'a, Boxed<JMember>>
    requires { length pieces.now < 2 ^ 32 }
    ensures { Gives found (Shorter pieces.now) (r.bodied (r.readers steps) max_depth (suc max_depth) max_depth (owner_seen owner.entry) (shown pieces.now)) result }
{
    let depths = Depths {
        types: MAX_DEPTH,
        values: MAX_DEPTH + 1,
        holder: MAX_DEPTH,
        is_top: true,
    };
    Rules {
        parts: Grammar {
            alloc,
            depth: MAX_DEPTH,
            steps: STEPS,
            read: part,
        },
    }
    .bodied(pieces, owner, depths)
}

/// The constants of an enum with their bodies, and the pieces after them.
#[tactic(auto, unfolding(java_unit_grammar::specs::Standing::steps))]
pub fn constants_list<'a>(alloc: Global, pieces: Pieces<'a>) -> Answer<'a, ConstantsFound>
    requires { length pieces.now < 2 ^ 32 }
    ensures { Gives constants_found (Shorter pieces.now) (r.constants_list (r.readers steps) (shown pieces.now)) result }
{
    Rules {
        parts: Grammar {
            alloc,
            depth: MAX_DEPTH,
            steps: STEPS,
            read: part,
        },
    }
    .constants_list(pieces)
}

/// What follows a member that ends in a `;`. Whoever wants no tree is spared letting it go.
pub fn past_declared<'a, 'b>(
    alloc: Global,
    pieces: Pieces<'a>,
    owner: Owner<'b>,
) -> Result<Option<Pieces<'a>>, NoMemory>
    requires { length pieces.now < 2 ^ 32 }
    ensures { Gives past_found Always (past (r.declared (r.readers steps) max_depth (suc max_depth) 199 top_levels (owner_seen owner.entry)) (shown pieces.now)) result }
{
    match top_declared(alloc, pieces, owner) {
        Ok(Some((member, rest))) => {
            let_go(member);
            Ok(Some(rest))
        }
        Ok(None) => Ok(None),
        Err(error) => Err(error),
    }
}

/// What follows a member that ends in a block.
pub fn past_bodied<'a, 'b>(
    alloc: Global,
    pieces: Pieces<'a>,
    owner: Owner<'b>,
) -> Result<Option<Pieces<'a>>, NoMemory>
    requires { length pieces.now < 2 ^ 32 }
    ensures { Gives past_found Always (past (r.bodied (r.readers steps) max_depth (suc max_depth) max_depth (owner_seen owner.entry)) (shown pieces.now)) result }
{
    match top_bodied(alloc, pieces, owner) {
        Ok(Some((member, rest))) => {
            let_go(member);
            Ok(Some(rest))
        }
        Ok(None) => Ok(None),
        Err(error) => Err(error),
    }
}

/// What follows the constants of an enum.
pub fn past_constants<'a>(alloc: Global, pieces: Pieces<'a>) -> Result<Option<Pieces<'a>>, NoMemory>
    requires { length pieces.now < 2 ^ 32 }
    ensures { Gives past_found Always (past (r.constants_list (r.readers steps)) (shown pieces.now)) result }
{
    match constants_list(alloc, pieces) {
        Ok(Some((list, rest))) => {
            let_go(list);
            Ok(Some(rest))
        }
        Ok(None) => Ok(None),
        Err(error) => Err(error),
    }
}
