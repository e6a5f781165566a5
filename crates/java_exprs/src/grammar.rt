//! The reader of parts, and lists of them. The rules take it as a parameter, so that each is proved by itself.

ghost use Rattle.std.specs.Prelude.{◌≡◌, ◌≤◌, ◌<◌, ◌+◌, length, []};
ghost use Rattle.java_expr_grammar.specs.Reading as r;
ghost use Rattle.java_token_cursor.specs.Heads.{Finds};
ghost use Rattle.java_token_cursor.specs.Shown.{shown};
ghost use Rattle.java_type_parser.specs.Gives.{Gives};
ghost use Rattle.java_exprs.specs.Rules as g;
ghost use Rattle.java_exprs.specs.Exprs.{ExprFits, ExprsFit, expr_found, exprs_found, Nests, separator};

use crate::ends::args_end;
use crate::found::{ExprFound, ExprsFound};
use j2k_base::NoMemory;
use java_token_cursor::{Pieces, braces_end, comma, inner_comma};
use java_tree::Position;
use java_type_parser::{found_or_let_go, larger, let_go, onward};
use sqlite_items::Items;
use std::alloc::Global;

#[derive(Clone, Copy)]
pub struct Grammar<F> {
    pub alloc: Global,
    /// How deep parts may be.
    pub depth: usize,
    /// Reads parts: the pieces, how deep it may be, and the least level.
    pub read: F,
}

/// The comma between two parts; in braces one that a part follows.
fn separator<'a>(in_braces: bool, pieces: Pieces<'a>) -> Option<(Position, Pieces<'a>)>
    ensures { Finds (separator in_braces (shown pieces.now)) result }
{
    if in_braces {
        inner_comma(pieces)
    } else {
        comma(pieces)
    }
}

impl<
    F: Fn(Global, Pieces<'_>, usize, usize) -> Result<Option<(ExprFound, Pieces<'_>)>, NoMemory>,
> Grammar<F> {
    /// A part of the level `least` or above.
    pub fn sub<'a>(
        &self,
        pieces: Pieces<'a>,
        least: usize,
    ) -> Result<Option<(ExprFound, Pieces<'a>)>, NoMemory>
        requires { Nests self.now.depth (F.pre self.now.read) (F.post self.now.read) }
        ensures { Gives expr_found (ExprFits self.now.depth) (r.read self.now.depth least (shown pieces.now)) result }
    {
        (self.read)(self.alloc, pieces, self.depth, least)
    }

    /// No expressions.
    fn none(&self) -> ExprsFound
        ensures items { result.items ≡ [] }
        ensures commas { result.commas ≡ [] }
        ensures deepest { result.deepest ≡ 0 }
    {
        ExprsFound {
            items: Items::new(self.alloc),
            commas: Items::new(self.alloc),
            deepest: 0,
        }
    }

    /// One or more parts of the level `least` or above.
    #[tactic(auto, using(crate::proofs::Lists::lists), unfolding(java_expr_grammar::specs::Reading::some_by))]
    fn some<'a>(
        &self,
        in_braces: bool,
        least: usize,
        pieces: Pieces<'a>,
    ) -> Result<Option<(ExprsFound, Pieces<'a>)>, NoMemory>
        requires nests { Nests self.now.depth (F.pre self.now.read) (F.post self.now.read) }
        ensures { Gives exprs_found (ExprsFit self.now.depth) (r.some_by (separator in_braces) (r.read self.now.depth least) (shown pieces.now)) result }
    {
        let Some((found, rest)) = self.sub(pieces, least)? else {
            return Ok(None);
        };
        let mut parts = self.none();
        let Ok(()) = parts.items.push(found.tree.into_inner()) else {
            let_go(parts);
            return Err(NoMemory);
        };
        parts.deepest = found.depth;
        self.more(in_braces, least, parts, rest)
    }

    #[tactic(auto, using(java_expr_grammar::proofs::LawsToCite::expr_parts), unfolding(java_expr_grammar::specs::Reading::more_by))]
    fn more<'a>(
        &self,
        in_braces: bool,
        least: usize,
        mut found: ExprsFound,
        mut pieces: Pieces<'a>,
    ) -> Result<Option<(ExprsFound, Pieces<'a>)>, NoMemory>
        requires nests { Nests self.now.depth (F.pre self.now.read) (F.post self.now.read) }
        requires fits { ExprsFit self.now.depth (found, pieces) }
        ensures { Gives exprs_found (ExprsFit self.now.depth) (r.more_by (separator in_braces) (r.read self.now.depth least) (length pieces.entry.now) found.items found.commas (shown pieces.entry.now)) result }
    {
        for _turn in 0..pieces.len() {
            let Some((at, rest)) = separator(in_braces, pieces) else {
                return Ok(Some((found, pieces)));
            };
            let (next, rest) = found_or_let_go!(self.sub(rest, least), found);
            let Ok(()) = found.items.push(next.tree.into_inner()) else {
                let_go(found);
                return Err(NoMemory);
            };
            let Ok(()) = found.commas.push(at) else {
                let_go(found);
                return Err(NoMemory);
            };
            found.deepest = larger(found.deepest, next.depth);
            pieces = onward(rest);
        }
        Ok(Some((found, pieces)))
    }

    /// The arguments up to their `)`.
    #[tactic(auto, using(java_expr_grammar::proofs::LawsToCite::expr_parts), unfolding(java_expr_grammar::specs::Reading::args_from))]
    pub fn args_from<'a>(
        &self,
        pieces: Pieces<'a>,
    ) -> Result<Option<(ExprsFound, Pieces<'a>)>, NoMemory>
        requires nests { Nests self.now.depth (F.pre self.now.read) (F.post self.now.read) }
        ensures { Gives exprs_found (ExprsFit self.now.depth) (g.args_from self.now.depth (shown pieces.now)) result }
    {
        if args_end(pieces).is_some() {
            return Ok(Some((self.none(), pieces)));
        }
        self.some(false, 1, pieces)
    }

    /// The values up to the end of the braces.
    #[tactic(auto, using(java_expr_grammar::proofs::LawsToCite::expr_parts), unfolding(java_expr_grammar::specs::Reading::inits))]
    pub fn inits<'a>(
        &self,
        pieces: Pieces<'a>,
    ) -> Result<Option<(ExprsFound, Pieces<'a>)>, NoMemory>
        requires nests { Nests self.now.depth (F.pre self.now.read) (F.post self.now.read) }
        requires room { self.now.depth < usize.MAX }
        ensures { Gives exprs_found (ExprsFit self.now.depth) (g.inits self.now.depth (shown pieces.now)) result }
    {
        if braces_end(pieces).is_some() {
            return Ok(Some((self.none(), pieces)));
        }
        self.some(true, 0, pieces)
    }
}
