//! What `new` creates, and the values in braces.

ghost use Rattle.std.specs.Prelude.{◌≡◌, ◌≤◌, ◌<◌, ◌+◌, max, IfOk, ◌∷◌};
ghost use Rattle.java_expr_grammar.specs.Reading as r;
ghost use Rattle.java_token_cursor.specs.Shown.{shown};
ghost use Rattle.java_type_parser.specs.Gives.{Gives, TypeFits};
ghost use Rattle.java_exprs.specs.Rules as g;
ghost use Rattle.java_exprs.specs.Creation.{new_class};
ghost use Rattle.java_exprs.specs.Exprs.{OperandFits, IsMade, expr_found, Nests};

use crate::ends::args_end;
use crate::found::{ExprFound, ExprsFound, Made};
use crate::grammar::Grammar;
use j2k_base::NoMemory;
use java_token_cursor::{Head, Pieces, braces_end, close_square, first, open_curly, open_round};
use java_tree::{JBrackets, JCreated, JExpr, Mark, Position};
use java_type_parser::{
    TypeFound, begins_inferred, brackets, found_or_let_go, inferred, is_class, larger, let_go,
    read_base,
};
use sqlite_items::{Boxed, Items};
use std::alloc::Global;

/// The pair, and those that come first.
fn pairs_from<'a>(
    alloc: Global,
    pair: JBrackets,
    pieces: Pieces<'a>,
) -> Result<(Items<JBrackets>, Pieces<'a>), NoMemory>
    ensures { IfOk result (λ x. (x.0 ≡ pair ∷ (r.brackets (shown pieces.now)).0) × (shown x.1.now ≡ (r.brackets (shown pieces.now)).1)) }
{
    let mut pairs = Items::new(alloc);
    pairs.push(pair)?;
    let (more, rest) = brackets(alloc, pieces)?;
    pairs.append(more)?;
    Ok((pairs, rest))
}

impl<
    F: Fn(Global, Pieces<'_>, usize, usize) -> Result<Option<(ExprFound, Pieces<'_>)>, NoMemory>,
> Grammar<F> {
    #[tactic(auto, using(java_expr_grammar::proofs::LawsToCite::expr_parts), unfolding(java_expr_grammar::specs::Reading::new_args))]
    fn new_args<'a>(
        &self,
        at: Position,
        made: Made,
        lp: Position,
        pieces: Pieces<'a>,
    ) -> Result<Option<(ExprFound, Pieces<'a>)>, NoMemory>
        requires nests { Nests self.now.depth (F.pre self.now.read) (F.post self.now.read) }
        requires room { self.now.depth < usize.MAX }
        requires fits { IsMade self.now.depth made }
        ensures { Gives expr_found (OperandFits self.now.depth) (g.new_args self.now.depth at made.tree lp (shown pieces.now)) result }
    {
        let (args, rest) = found_or_let_go!(self.args_from(pieces), made);
        let Some(((rp, body), rest)) = args_end(rest) else {
            let_go(made);
            let_go(args);
            return Ok(None);
        };
        let ExprsFound {
            items,
            commas,
            deepest,
        } = args;
        let Made { tree: made, depth } = made;
        let depth = larger(depth, deepest) + 1;
        let tree = JExpr::New(at, made, lp, items, commas, rp, body);
        let tree = Boxed::new(self.alloc, tree)?;
        Ok(Some((ExprFound { tree, depth }, rest)))
    }

    #[tactic(auto, using(java_expr_grammar::proofs::LawsToCite::expr_parts), unfolding(java_expr_grammar::specs::Reading::new_inferred))]
    fn new_inferred<'a>(
        &self,
        at: Position,
        pieces: Pieces<'a>,
    ) -> Result<Option<(ExprFound, Pieces<'a>)>, NoMemory>
        requires nests { Nests self.now.depth (F.pre self.now.read) (F.post self.now.read) }
        requires room { self.now.depth < usize.MAX }
        ensures { Gives expr_found (OperandFits self.now.depth) (g.new_inferred self.now.depth at (shown pieces.now)) result }
    {
        let Some((tree, rest)) = inferred(self.alloc, pieces)? else {
            return Ok(None);
        };
        let Some((lp, rest)) = open_round(rest) else {
            let_go(tree);
            return Ok(None);
        };
        self.new_args(at, Made { tree, depth: 0 }, lp, rest)
    }

    #[tactic(auto, using(java_expr_grammar::proofs::LawsToCite::expr_parts), unfolding(java_expr_grammar::specs::Reading::new_sized))]
    fn new_sized<'a>(
        &self,
        at: Position,
        of: TypeFound,
        lb: Position,
        pieces: Pieces<'a>,
    ) -> Result<Option<(ExprFound, Pieces<'a>)>, NoMemory>
        requires nests { Nests self.now.depth (F.pre self.now.read) (F.post self.now.read) }
        requires room { self.now.depth < usize.MAX }
        requires fits { TypeFits (self.now.depth + 1) (of, pieces) }
        ensures { Gives expr_found (OperandFits self.now.depth) (g.new_sized self.now.depth at of.tree lb (shown pieces.now)) result }
    {
        let (size, rest) = found_or_let_go!(self.sub(pieces, 1), of);
        let Some((rb, rest)) = close_square(rest) else {
            let_go(of);
            let_go(size);
            return Ok(None);
        };
        let Ok((more, rest)) = brackets(self.alloc, rest) else {
            let_go(of);
            let_go(size);
            return Err(NoMemory);
        };
        let TypeFound { tree: of, depth } = of;
        let depth = larger(depth.saturating_sub(1), size.depth) + 1;
        let tree = JExpr::NewArray(at, of, lb, size.tree, rb, more);
        let tree = Boxed::new(self.alloc, tree)?;
        Ok(Some((ExprFound { tree, depth }, rest)))
    }

    #[tactic(auto, using(java_expr_grammar::proofs::LawsToCite::expr_parts), unfolding(java_expr_grammar::specs::Reading::new_filled))]
    fn new_filled<'a>(
        &self,
        at: Position,
        of: TypeFound,
        pairs: Items<JBrackets>,
        pieces: Pieces<'a>,
    ) -> Result<Option<(ExprFound, Pieces<'a>)>, NoMemory>
        requires nests { Nests self.now.depth (F.pre self.now.read) (F.post self.now.read) }
        requires room { self.now.depth < usize.MAX }
        requires fits { TypeFits (self.now.depth + 1) (of, pieces) }
        ensures { Gives expr_found (OperandFits self.now.depth) (g.new_filled self.now.depth at of.tree pairs (shown pieces.now)) result }
    {
        let Some((lc, rest)) = open_curly(pieces) else {
            let_go(of);
            let_go(pairs);
            return Ok(None);
        };
        let (values, rest) = found_or_let_go!(self.inits(rest), of, pairs);
        let Some(((more, rc), rest)) = braces_end(rest) else {
            let_go(of);
            let_go(pairs);
            let_go(values);
            return Ok(None);
        };
        let ExprsFound {
            items,
            commas,
            deepest,
        } = values;
        let TypeFound { tree: of, depth } = of;
        let depth = larger(depth.saturating_sub(1), deepest) + 1;
        let tree = JExpr::NewFilled(at, of, pairs, lc, items, commas, more, rc);
        let tree = Boxed::new(self.alloc, tree)?;
        Ok(Some((ExprFound { tree, depth }, rest)))
    }

    /// Behind the `[` that follows the type.
    #[tactic(auto, using(java_expr_grammar::proofs::LawsToCite::expr_parts))]
    fn new_array<'a>(
        &self,
        at: Position,
        of: TypeFound,
        lb: Position,
        pieces: Pieces<'a>,
    ) -> Result<Option<(ExprFound, Pieces<'a>)>, NoMemory>
        requires nests { Nests self.now.depth (F.pre self.now.read) (F.post self.now.read) }
        requires room { self.now.depth < usize.MAX }
        requires fits { TypeFits (self.now.depth + 1) (of, pieces) }
        ensures { Gives expr_found (OperandFits self.now.depth) (g.new_array self.now.depth at of.tree lb (shown pieces.now)) result }
    {
        match first(pieces) {
            Head::Mark(Mark::CloseSquare, rb, rest) => {
                let pair = JBrackets {
                    opens: lb,
                    closes: rb,
                };
                let Ok((pairs, rest)) = pairs_from(self.alloc, pair, rest) else {
                    let_go(of);
                    return Err(NoMemory);
                };
                self.new_filled(at, of, pairs, rest)
            }
            _ => self.new_sized(at, of, lb, pieces),
        }
    }

    /// Behind the type and the `(` that follows it.
    #[tactic(auto, using(java_expr_grammar::proofs::LawsToCite::expr_parts))]
    fn new_class<'a>(
        &self,
        at: Position,
        of: TypeFound,
        lp: Position,
        pieces: Pieces<'a>,
    ) -> Result<Option<(ExprFound, Pieces<'a>)>, NoMemory>
        requires nests { Nests self.now.depth (F.pre self.now.read) (F.post self.now.read) }
        requires room { self.now.depth < usize.MAX }
        requires fits { TypeFits (self.now.depth + 1) (of, pieces) }
        ensures { Gives expr_found (OperandFits self.now.depth) (new_class self.now.depth at of.tree lp (shown pieces.now)) result }
    {
        if !is_class(&of.tree) {
            let_go(of);
            return Ok(None);
        }
        let TypeFound { tree, depth } = of;
        let made = Made {
            tree: JCreated::Type(tree),
            depth: depth.saturating_sub(1),
        };
        self.new_args(at, made, lp, pieces)
    }

    /// Behind the type.
    #[tactic(auto, using(java_expr_grammar::proofs::LawsToCite::expr_parts))]
    fn new_of<'a>(
        &self,
        at: Position,
        of: TypeFound,
        pieces: Pieces<'a>,
    ) -> Result<Option<(ExprFound, Pieces<'a>)>, NoMemory>
        requires nests { Nests self.now.depth (F.pre self.now.read) (F.post self.now.read) }
        requires room { self.now.depth < usize.MAX }
        requires fits { TypeFits (self.now.depth + 1) (of, pieces) }
        ensures { Gives expr_found (OperandFits self.now.depth) (g.new_of self.now.depth at of.tree (shown pieces.now)) result }
    {
        match first(pieces) {
            Head::Mark(Mark::OpenRound, lp, rest) => self.new_class(at, of, lp, rest),
            Head::Mark(Mark::OpenSquare, lb, rest) => self.new_array(at, of, lb, rest),
            _ => {
                let_go(of);
                Ok(None)
            }
        }
    }

    /// Behind `new`.
    #[tactic(auto, using(java_expr_grammar::proofs::LawsToCite::expr_parts), unfolding(java_expr_grammar::specs::Reading::creation))]
    pub fn creation<'a>(
        &self,
        at: Position,
        pieces: Pieces<'a>,
    ) -> Result<Option<(ExprFound, Pieces<'a>)>, NoMemory>
        requires nests { Nests self.now.depth (F.pre self.now.read) (F.post self.now.read) }
        requires room { self.now.depth < usize.MAX }
        ensures { Gives expr_found (OperandFits self.now.depth) (g.creation self.now.depth at (shown pieces.now)) result }
    {
        if begins_inferred(pieces) {
            return self.new_inferred(at, pieces);
        }
        let Some((of, rest)) = read_base(self.alloc, pieces, self.depth + 1)? else {
            return Ok(None);
        };
        self.new_of(at, of, rest)
    }

    /// The values of an array behind their `{`.
    #[tactic(auto, using(java_expr_grammar::proofs::LawsToCite::expr_parts), unfolding(java_expr_grammar::specs::Reading::braces))]
    pub fn braces<'a>(
        &self,
        lc: Position,
        pieces: Pieces<'a>,
    ) -> Result<Option<(ExprFound, Pieces<'a>)>, NoMemory>
        requires nests { Nests self.now.depth (F.pre self.now.read) (F.post self.now.read) }
        requires room { self.now.depth < usize.MAX }
        ensures { Gives expr_found (OperandFits self.now.depth) (g.braces self.now.depth lc (shown pieces.now)) result }
    {
        let Some((values, rest)) = self.inits(pieces)? else {
            return Ok(None);
        };
        let Some(((more, rc), rest)) = braces_end(rest) else {
            let_go(values);
            return Ok(None);
        };
        let ExprsFound {
            items,
            commas,
            deepest,
        } = values;
        let tree = JExpr::Braces(lc, items, commas, more, rc);
        let tree = Boxed::new(self.alloc, tree)?;
        Ok(Some((
            ExprFound {
                tree,
                depth: deepest + 1,
            },
            rest,
        )))
    }
}
