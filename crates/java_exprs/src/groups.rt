//! What stands in parentheses, and lambdas.

ghost use Rattle.std.specs.Prelude.{◌≡◌, ◌≤◌, ◌<◌, ◌+◌, max, Some};
ghost use Rattle.java_tree.specs.Trees as s;
ghost use Rattle.java_tree.specs.declared.exprs.JExpr.TheVariants as e;
ghost use Rattle.java_token_cursor.specs.Shown.{shown};
ghost use Rattle.java_type_parser.specs.Gives.{Gives, TypeFits};
ghost use Rattle.java_exprs.specs.Rules as g;
ghost use Rattle.java_exprs.specs.Exprs.{OperandFits, IsParams, expr_found, Nests};

use crate::found::{ExprFound, Params};
use crate::grammar::Grammar;
use j2k_base::NoMemory;
use java_token_cursor::{Head, Pieces, arrow, close, first};
use java_tree::{JExpr, JParams, Position, Span};
use java_type_parser::{
    ParamsFound, TypeFound, TypedsFound, after_close, begins_arrow, begins_names, begins_sign,
    found_or_let_go, is_cast, is_primitive, larger, let_go, read_type, some_params, typed_from,
};
use sqlite_items::Boxed;
use std::alloc::Global;

impl<
    F: Fn(Global, Pieces<'_>, usize, usize) -> Result<Option<(ExprFound, Pieces<'_>)>, NoMemory>,
> Grammar<F> {
    #[tactic(auto, using(java_expr_grammar::proofs::LawsToCite::expr_parts), unfolding(java_expr_grammar::specs::Reading::paren))]
    fn paren<'a>(
        &self,
        lp: Position,
        pieces: Pieces<'a>,
    ) -> Result<Option<(ExprFound, Pieces<'a>)>, NoMemory>
        requires nests { Nests self.now.depth (F.pre self.now.read) (F.post self.now.read) }
        requires room { self.now.depth < usize.MAX }
        ensures { Gives expr_found (OperandFits self.now.depth) (g.paren self.now.depth lp (shown pieces.now)) result }
    {
        let Some((inner, rest)) = self.sub(pieces, 1)? else {
            return Ok(None);
        };
        let Some((rp, rest)) = close(rest) else {
            let_go(inner);
            return Ok(None);
        };
        let ExprFound { tree, depth } = inner;
        let tree = Boxed::new(self.alloc, JExpr::Paren(lp, tree, rp))?;
        Ok(Some((
            ExprFound {
                tree,
                depth: depth + 1,
            },
            rest,
        )))
    }

    #[tactic(auto, using(java_expr_grammar::proofs::LawsToCite::expr_parts), unfolding(java_expr_grammar::specs::Reading::cast))]
    fn cast<'a>(
        &self,
        lp: Position,
        pieces: Pieces<'a>,
    ) -> Result<Option<(ExprFound, Pieces<'a>)>, NoMemory>
        requires nests { Nests self.now.depth (F.pre self.now.read) (F.post self.now.read) }
        requires room { self.now.depth < usize.MAX }
        ensures { Gives expr_found (OperandFits self.now.depth) (g.cast self.now.depth lp (shown pieces.now)) result }
    {
        let Some((to, rest)) = read_type(self.alloc, pieces, self.depth)? else {
            return Ok(None);
        };
        let Some((rp, rest)) = close(rest) else {
            let_go(to);
            return Ok(None);
        };
        if is_primitive(&to.tree) || !begins_sign(rest) {
            self.cast_of(lp, to, rp, rest)
        } else {
            let_go(to);
            Ok(None)
        }
    }

    #[tactic(auto, using(java_expr_grammar::proofs::LawsToCite::expr_parts), unfolding(java_expr_grammar::specs::Reading::cast_of))]
    fn cast_of<'a>(
        &self,
        lp: Position,
        to: TypeFound,
        rp: Position,
        pieces: Pieces<'a>,
    ) -> Result<Option<(ExprFound, Pieces<'a>)>, NoMemory>
        requires nests { Nests self.now.depth (F.pre self.now.read) (F.post self.now.read) }
        requires room { self.now.depth < usize.MAX }
        requires fits { TypeFits self.now.depth (to, pieces) }
        ensures { Gives expr_found (OperandFits self.now.depth) (g.cast_of self.now.depth lp to.tree rp (shown pieces.now)) result }
    {
        let (inner, rest) = found_or_let_go!(self.sub(pieces, 14), to);
        let TypeFound { tree: to, depth } = to;
        let depth = larger(depth, inner.depth) + 1;
        let tree = Boxed::new(self.alloc, JExpr::Cast(lp, to, rp, inner.tree))?;
        Ok(Some((ExprFound { tree, depth }, rest)))
    }

    /// A lambda behind its parameters, with an expression.
    #[tactic(auto, using(java_expr_grammar::proofs::LawsToCite::expr_parts), unfolding(java_expr_grammar::specs::Reading::lambda_body))]
    fn lambda_body<'a>(
        &self,
        params: Params,
        pieces: Pieces<'a>,
    ) -> Result<Option<(ExprFound, Pieces<'a>)>, NoMemory>
        requires nests { Nests self.now.depth (F.pre self.now.read) (F.post self.now.read) }
        requires room { self.now.depth < usize.MAX }
        requires fits { IsParams self.now.depth params }
        ensures { Gives expr_found (OperandFits self.now.depth) (g.lambda_body self.now.depth params.tree (shown pieces.now)) result }
    {
        let Some((at, rest)) = arrow(pieces) else {
            let_go(params);
            return Ok(None);
        };
        let (body, rest) = found_or_let_go!(self.sub(rest, 1), params);
        let Params { tree, depth } = params;
        let depth = larger(depth, body.depth) + 1;
        let tree = Boxed::new(self.alloc, JExpr::Lambda(tree, at, body.tree))?;
        Ok(Some((ExprFound { tree, depth }, rest)))
    }

    /// A lambda with a block.
    #[tactic(auto, using(java_expr_grammar::proofs::LawsToCite::expr_parts))]
    fn block<'a>(
        &self,
        params: Params,
        at: Position,
        body: Span,
        pieces: Pieces<'a>,
    ) -> Result<Option<(ExprFound, Pieces<'a>)>, NoMemory>
        requires nests { Nests self.now.depth (F.pre self.now.read) (F.post self.now.read) }
        requires room { self.now.depth < usize.MAX }
        requires fits { IsParams self.now.depth params }
        ensures { Gives expr_found (OperandFits self.now.depth) (Some (e.LambdaBlock params.tree at body, shown pieces.now)) result }
    {
        let Params { tree, depth } = params;
        let depth = larger(depth, 1) + 1;
        let tree = Boxed::new(self.alloc, JExpr::LambdaBlock(tree, at, body))?;
        Ok(Some((ExprFound { tree, depth }, pieces)))
    }

    /// Behind the parameters.
    #[tactic(auto, using(java_expr_grammar::proofs::LawsToCite::expr_parts), unfolding(java_expr_grammar::specs::Reading::lambda))]
    pub fn lambda<'a>(
        &self,
        params: Params,
        pieces: Pieces<'a>,
    ) -> Result<Option<(ExprFound, Pieces<'a>)>, NoMemory>
        requires nests { Nests self.now.depth (F.pre self.now.read) (F.post self.now.read) }
        requires room { self.now.depth < usize.MAX }
        requires fits { IsParams self.now.depth params }
        ensures { Gives expr_found (OperandFits self.now.depth) (g.lambda self.now.depth params.tree (shown pieces.now)) result }
    {
        match first(pieces) {
            Head::Block(at, body, rest) => self.block(params, at, body, rest),
            _ => self.lambda_body(params, pieces),
        }
    }

    #[tactic(auto, using(java_expr_grammar::proofs::LawsToCite::expr_parts), unfolding(java_expr_grammar::specs::Reading::lambda_names))]
    fn lambda_names<'a>(
        &self,
        lp: Position,
        pieces: Pieces<'a>,
    ) -> Result<Option<(ExprFound, Pieces<'a>)>, NoMemory>
        requires nests { Nests self.now.depth (F.pre self.now.read) (F.post self.now.read) }
        requires room { self.now.depth < usize.MAX }
        ensures { Gives expr_found (OperandFits self.now.depth) (g.lambda_names self.now.depth lp (shown pieces.now)) result }
    {
        let Some((found, rest)) = some_params(self.alloc, pieces)? else {
            return Ok(None);
        };
        let Some((rp, rest)) = close(rest) else {
            let_go(found);
            return Ok(None);
        };
        let ParamsFound { items, commas } = found;
        let tree = JParams::Several(lp, items, commas, rp);
        self.lambda(Params { tree, depth: 1 }, rest)
    }

    #[tactic(auto, using(java_expr_grammar::proofs::LawsToCite::expr_parts), unfolding(java_expr_grammar::specs::Reading::lambda_typed, java_expr_grammar::specs::Reading::typed_from))]
    fn lambda_typed<'a>(
        &self,
        lp: Position,
        pieces: Pieces<'a>,
    ) -> Result<Option<(ExprFound, Pieces<'a>)>, NoMemory>
        requires nests { Nests self.now.depth (F.pre self.now.read) (F.post self.now.read) }
        requires room { self.now.depth < usize.MAX }
        ensures { Gives expr_found (OperandFits self.now.depth) (g.lambda_typed self.now.depth lp (shown pieces.now)) result }
    {
        let Some((found, rest)) = typed_from(self.alloc, pieces, self.depth)? else {
            return Ok(None);
        };
        let Some((rp, rest)) = close(rest) else {
            let_go(found);
            return Ok(None);
        };
        let TypedsFound {
            items,
            commas,
            deepest: depth,
        } = found;
        let tree = JParams::Typed(lp, items, commas, rp);
        self.lambda(Params { tree, depth }, rest)
    }

    #[tactic(auto, using(java_expr_grammar::proofs::LawsToCite::expr_parts), unfolding(java_expr_grammar::specs::Reading::lambda_of))]
    fn lambda_of<'a>(
        &self,
        lp: Position,
        pieces: Pieces<'a>,
    ) -> Result<Option<(ExprFound, Pieces<'a>)>, NoMemory>
        requires nests { Nests self.now.depth (F.pre self.now.read) (F.post self.now.read) }
        requires room { self.now.depth < usize.MAX }
        ensures { Gives expr_found (OperandFits self.now.depth) (g.lambda_of self.now.depth lp (shown pieces.now)) result }
    {
        if begins_names(pieces) {
            self.lambda_names(lp, pieces)
        } else {
            self.lambda_typed(lp, pieces)
        }
    }

    /// Behind a `(`.
    #[tactic(auto, using(java_expr_grammar::proofs::LawsToCite::expr_parts), unfolding(java_expr_grammar::specs::Reading::group))]
    pub fn group<'a>(
        &self,
        lp: Position,
        pieces: Pieces<'a>,
    ) -> Result<Option<(ExprFound, Pieces<'a>)>, NoMemory>
        requires nests { Nests self.now.depth (F.pre self.now.read) (F.post self.now.read) }
        requires room { self.now.depth < usize.MAX }
        ensures { Gives expr_found (OperandFits self.now.depth) (g.group self.now.depth lp (shown pieces.now)) result }
    {
        let after = after_close(pieces);
        if begins_arrow(after) {
            self.lambda_of(lp, pieces)
        } else if is_cast(pieces, after) {
            self.cast(lp, pieces)
        } else {
            self.paren(lp, pieces)
        }
    }
}
