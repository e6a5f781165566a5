//! Operands and the suffixes behind them.

ghost use Rattle.std.specs.Prelude.{◌≡◌, ◌≤◌, ◌<◌, ◌+◌};
ghost use Rattle.java_expr_grammar.specs.Reading as r;
ghost use Rattle.java_token_cursor.specs.Shown.{shown};
ghost use Rattle.java_type_parser.specs.Gives.{Gives};
ghost use Rattle.java_exprs.specs.Rules as g;
ghost use Rattle.java_exprs.specs.Exprs.{ExprFits, ExprsFit, IsExpr, expr_found, exprs_found, Nests, turn, grown_found, GrownFits};

use crate::found::{ExprFound, ExprsFound, Grown};
use crate::grammar::Grammar;
use j2k_base::NoMemory;
use java_token_cursor::Pieces;
use java_type_parser::{let_go, next_suffix, onward, strength, takes, top};
use std::alloc::Global;

impl<
    F: Fn(Global, Pieces<'_>, usize, usize) -> Result<Option<(ExprFound, Pieces<'_>)>, NoMemory>,
> Grammar<F> {
    /// The expression with the next suffix of the level `least` or above, or itself where none comes.
    #[tactic(auto, using(crate::proofs::Turns::tests), unfolding(crate::specs::Exprs::turn))]
    fn turn<'a>(
        &self,
        least: usize,
        left: ExprFound,
        pieces: Pieces<'a>,
    ) -> Result<Option<(Grown, Pieces<'a>)>, NoMemory>
        requires nests { Nests self.now.depth (F.pre self.now.read) (F.post self.now.read) }
        requires room { self.now.depth < usize.MAX }
        requires fits { IsExpr (self.now.depth + 1) left }
        ensures { Gives grown_found (GrownFits (self.now.depth + 1)) (turn self.now.depth least left.tree (shown pieces.now)) result }
    {
        let Some((suffix, rest)) = next_suffix(pieces) else {
            return Ok(Some((
                Grown {
                    found: left,
                    is_longer: false,
                },
                pieces,
            )));
        };
        if strength(suffix) < least {
            return Ok(Some((
                Grown {
                    found: left,
                    is_longer: false,
                },
                pieces,
            )));
        }
        if !takes(suffix, left.tree.get()) || self.depth < left.depth {
            let_go(left);
            return Ok(None);
        }
        let Some((found, rest)) = self.finish(suffix, left, rest)? else {
            return Ok(None);
        };
        Ok(Some((
            Grown {
                found,
                is_longer: true,
            },
            rest,
        )))
    }

    #[tactic(auto, using(crate::proofs::Turns::turns), unfolding(java_expr_grammar::specs::Reading::climb))]
    fn climb<'a>(
        &self,
        least: usize,
        mut left: ExprFound,
        mut pieces: Pieces<'a>,
    ) -> Result<Option<(ExprFound, Pieces<'a>)>, NoMemory>
        requires nests { Nests self.now.depth (F.pre self.now.read) (F.post self.now.read) }
        requires room { self.now.depth < usize.MAX }
        requires fits { IsExpr (self.now.depth + 1) left }
        ensures { Gives expr_found (ExprFits (self.now.depth + 1)) (g.climb self.now.depth least left.tree (shown pieces.entry.now)) result }
    {
        for _turn in 0..self.depth + 1 {
            let Some((next, rest)) = self.turn(least, left, pieces)? else {
                return Ok(None);
            };
            let Grown { found, is_longer } = next;
            if !is_longer {
                return Ok(Some((found, rest)));
            }
            left = found;
            pieces = onward(rest);
        }
        Ok(Some((left, pieces)))
    }

    /// An expression of the level `least` or above.
    #[tactic(auto, using(crate::proofs::Turns::tests), unfolding(java_expr_grammar::specs::Reading::level_read))]
    fn level_read<'a>(
        &self,
        least: usize,
        pieces: Pieces<'a>,
    ) -> Result<Option<(ExprFound, Pieces<'a>)>, NoMemory>
        requires nests { Nests self.now.depth (F.pre self.now.read) (F.post self.now.read) }
        requires room { self.now.depth < usize.MAX }
        ensures { Gives expr_found (ExprFits (self.now.depth + 1)) (g.level_read self.now.depth least (shown pieces.now)) result }
    {
        let Some((found, rest)) = self.operand(pieces)? else {
            return Ok(None);
        };
        if top(found.tree.get()) < least || self.depth + 1 < found.depth {
            let_go(found);
            return Ok(None);
        }
        self.climb(least, found, rest)
    }
}

/// The expression of the level `least` or above that comes first, no deeper than `depth`, and the
/// pieces after it.
pub fn read<'a>(
    alloc: Global,
    pieces: Pieces<'a>,
    depth: usize,
    least: usize,
) -> Result<Option<(ExprFound, Pieces<'a>)>, NoMemory>
    ensures { Gives expr_found (ExprFits depth) (r.read depth least (shown pieces.now)) result }
{
    if depth == 0 {
        return Ok(None);
    }
    Grammar {
        alloc,
        depth: depth - 1,
        read,
    }
    .level_read(least, pieces)
}

/// The arguments up to their `)`, each no deeper than `depth`, and the pieces after them.
pub fn arguments<'a>(
    alloc: Global,
    pieces: Pieces<'a>,
    depth: usize,
) -> Result<Option<(ExprsFound, Pieces<'a>)>, NoMemory>
    ensures { Gives exprs_found (ExprsFit depth) (g.args_from depth (shown pieces.now)) result }
{
    Grammar { alloc, depth, read }.args_from(pieces)
}
