//! The forms that a suffix makes.

ghost use Rattle.std.specs.Prelude.{◌≡◌, ◌≤◌, ◌<◌, ◌+◌, max, IfOk, Some};
ghost use Rattle.java_tree.specs.declared.exprs.JExpr.TheVariants as e;
ghost use Rattle.java_expr_grammar.specs.Reading as r;
ghost use Rattle.java_expr_grammar.specs.declared.suffix.Suffix.TheVariants as sx;
ghost use Rattle.java_token_cursor.specs.Shown.{shown};
ghost use Rattle.java_type_parser.specs.Gives.{Gives};
ghost use Rattle.java_exprs.specs.Rules as g;
ghost use Rattle.java_exprs.specs.Exprs.{ExprFits, IsExpr, expr_found, Nests, else_read};

use crate::found::{ExprFound, ExprsFound, Half};
use crate::grammar::Grammar;
use j2k_base::NoMemory;
use java_expr_grammar::Suffix;
use java_token_cursor::{Head, Pieces, close, close_square, colon, first};
use java_tree::{AssignOp, BinaryOp, JExpr, JParam, Mark, Position, PostfixOp};
use java_type_parser::{TypeFound, found_or_let_go, ident, larger, let_go, level, read_type};
use sqlite_items::Boxed;
use std::alloc::Global;

fn conditional(alloc: Global, half: Half, last: ExprFound) -> Result<ExprFound, NoMemory>
    requires room { max half.left.depth (max half.middle.depth last.depth) < usize.MAX }
    ensures { IfOk result (λ x. (x.tree ≡ e.Conditional half.left.tree half.question half.middle.tree half.at last.tree) × (x.depth ≡ max half.left.depth (max half.middle.depth last.depth) + 1)) }
{
    let Half {
        left,
        question,
        middle,
        at,
    } = half;
    let depth = larger(left.depth, larger(middle.depth, last.depth)) + 1;
    let tree = JExpr::Conditional(left.tree, question, middle.tree, at, last.tree);
    let tree = Boxed::new(alloc, tree)?;
    Ok(ExprFound { tree, depth })
}

impl<
    F: Fn(Global, Pieces<'_>, usize, usize) -> Result<Option<(ExprFound, Pieces<'_>)>, NoMemory>,
> Grammar<F> {
    #[tactic(auto, using(crate::proofs::Levels::levels), unfolding(java_expr_grammar::specs::Reading::finish))]
    fn binary<'a>(
        &self,
        op: BinaryOp,
        at: Position,
        left: ExprFound,
        pieces: Pieces<'a>,
    ) -> Result<Option<(ExprFound, Pieces<'a>)>, NoMemory>
        requires nests { Nests self.now.depth (F.pre self.now.read) (F.post self.now.read) }
        requires room { self.now.depth < usize.MAX }
        requires fits { IsExpr self.now.depth left }
        ensures { Gives expr_found (ExprFits (self.now.depth + 1)) (g.finish self.now.depth (sx.Binary op at) left.tree (shown pieces.now)) result }
    {
        let (right, rest) = found_or_let_go!(self.sub(pieces, level(op) + 1), left);
        let depth = larger(left.depth, right.depth) + 1;
        let tree = JExpr::Binary(left.tree, op, at, right.tree);
        let tree = Boxed::new(self.alloc, tree)?;
        Ok(Some((ExprFound { tree, depth }, rest)))
    }

    #[tactic(auto, using(java_expr_grammar::proofs::LawsToCite::expr_parts), unfolding(java_expr_grammar::specs::Reading::finish))]
    fn assign<'a>(
        &self,
        op: AssignOp,
        at: Position,
        left: ExprFound,
        pieces: Pieces<'a>,
    ) -> Result<Option<(ExprFound, Pieces<'a>)>, NoMemory>
        requires nests { Nests self.now.depth (F.pre self.now.read) (F.post self.now.read) }
        requires room { self.now.depth < usize.MAX }
        requires fits { IsExpr self.now.depth left }
        ensures { Gives expr_found (ExprFits (self.now.depth + 1)) (g.finish self.now.depth (sx.Assign op at) left.tree (shown pieces.now)) result }
    {
        let (right, rest) = found_or_let_go!(self.sub(pieces, 1), left);
        let depth = larger(left.depth, right.depth) + 1;
        let tree = JExpr::Assign(left.tree, op, at, right.tree);
        let tree = Boxed::new(self.alloc, tree)?;
        Ok(Some((ExprFound { tree, depth }, rest)))
    }

    #[tactic(auto, using(java_expr_grammar::proofs::LawsToCite::expr_parts), unfolding(java_expr_grammar::specs::Reading::choice))]
    fn choice<'a>(
        &self,
        left: ExprFound,
        question: Position,
        pieces: Pieces<'a>,
    ) -> Result<Option<(ExprFound, Pieces<'a>)>, NoMemory>
        requires nests { Nests self.now.depth (F.pre self.now.read) (F.post self.now.read) }
        requires room { self.now.depth < usize.MAX }
        requires fits { IsExpr self.now.depth left }
        ensures { Gives expr_found (ExprFits (self.now.depth + 1)) (g.choice self.now.depth left.tree question (shown pieces.now)) result }
    {
        let (middle, rest) = found_or_let_go!(self.sub(pieces, 1), left);
        let Some((at, rest)) = colon(rest) else {
            let_go(left);
            let_go(middle);
            return Ok(None);
        };
        let half = Half {
            left,
            question,
            middle,
            at,
        };
        self.else_of(half, rest)
    }

    /// Behind the `:`.
    #[tactic(auto, using(java_expr_grammar::proofs::LawsToCite::expr_parts))]
    fn else_of<'a>(
        &self,
        half: Half,
        pieces: Pieces<'a>,
    ) -> Result<Option<(ExprFound, Pieces<'a>)>, NoMemory>
        requires nests { Nests self.now.depth (F.pre self.now.read) (F.post self.now.read) }
        requires room { self.now.depth < usize.MAX }
        requires fits { IsExpr self.now.depth half.left }
        requires also { IsExpr self.now.depth half.middle }
        ensures { Gives expr_found (ExprFits (self.now.depth + 1)) (else_read (r.read self.now.depth) half.left.tree half.question half.middle.tree half.at (shown pieces.now)) result }
    {
        let (last, rest) = found_or_let_go!(self.sub(pieces, 2), half);
        let found = conditional(self.alloc, half, last)?;
        Ok(Some((found, rest)))
    }

    #[tactic(auto, using(java_expr_grammar::proofs::LawsToCite::expr_parts), unfolding(java_expr_grammar::specs::Reading::finish))]
    fn dotted<'a>(
        &self,
        dot: Position,
        left: ExprFound,
        pieces: Pieces<'a>,
    ) -> Result<Option<(ExprFound, Pieces<'a>)>, NoMemory>
        requires nests { Nests self.now.depth (F.pre self.now.read) (F.post self.now.read) }
        requires room { self.now.depth < usize.MAX }
        requires fits { IsExpr self.now.depth left }
        ensures { Gives expr_found (ExprFits (self.now.depth + 1)) (g.finish self.now.depth (sx.Dot dot) left.tree (shown pieces.now)) result }
    {
        let (name, rest) = found_or_let_go!(ident(self.alloc, pieces), left);
        self.member(left, dot, name, rest)
    }

    /// Behind a dot and a name.
    #[tactic(auto, using(java_expr_grammar::proofs::LawsToCite::expr_parts), unfolding(java_expr_grammar::specs::Reading::member))]
    fn member<'a>(
        &self,
        left: ExprFound,
        dot: Position,
        name: JParam,
        pieces: Pieces<'a>,
    ) -> Result<Option<(ExprFound, Pieces<'a>)>, NoMemory>
        requires nests { Nests self.now.depth (F.pre self.now.read) (F.post self.now.read) }
        requires room { self.now.depth < usize.MAX }
        requires fits { IsExpr self.now.depth left }
        ensures { Gives expr_found (ExprFits (self.now.depth + 1)) (g.member self.now.depth left.tree dot name (shown pieces.now)) result }
    {
        match first(pieces) {
            Head::Mark(Mark::OpenRound, lp, rest) => self.method(left, dot, name, lp, rest),
            _ => self.field(left, dot, name, pieces),
        }
    }

    #[tactic(auto, using(java_expr_grammar::proofs::LawsToCite::expr_parts))]
    fn field<'a>(
        &self,
        left: ExprFound,
        dot: Position,
        name: JParam,
        pieces: Pieces<'a>,
    ) -> Result<Option<(ExprFound, Pieces<'a>)>, NoMemory>
        requires nests { Nests self.now.depth (F.pre self.now.read) (F.post self.now.read) }
        requires room { self.now.depth < usize.MAX }
        requires fits { IsExpr self.now.depth left }
        ensures { Gives expr_found (ExprFits (self.now.depth + 1)) (Some (e.Field left.tree dot name.name name.at, shown pieces.now)) result }
    {
        let ExprFound { tree, depth } = left;
        let JParam { name, at } = name;
        let tree = Boxed::new(self.alloc, JExpr::Field(tree, dot, name, at))?;
        Ok(Some((
            ExprFound {
                tree,
                depth: depth + 1,
            },
            pieces,
        )))
    }

    #[tactic(auto, using(java_expr_grammar::proofs::LawsToCite::expr_parts), unfolding(java_expr_grammar::specs::Reading::method))]
    fn method<'a>(
        &self,
        left: ExprFound,
        dot: Position,
        name: JParam,
        lp: Position,
        pieces: Pieces<'a>,
    ) -> Result<Option<(ExprFound, Pieces<'a>)>, NoMemory>
        requires nests { Nests self.now.depth (F.pre self.now.read) (F.post self.now.read) }
        requires room { self.now.depth < usize.MAX }
        requires fits { IsExpr self.now.depth left }
        ensures { Gives expr_found (ExprFits (self.now.depth + 1)) (g.method self.now.depth left.tree dot name lp (shown pieces.now)) result }
    {
        let (args, rest) = found_or_let_go!(self.args_from(pieces), left, name);
        let Some((rp, rest)) = close(rest) else {
            let_go(left);
            let_go(name);
            let_go(args);
            return Ok(None);
        };
        let ExprsFound {
            items,
            commas,
            deepest,
        } = args;
        let JParam { name, at } = name;
        let depth = larger(left.depth, deepest) + 1;
        let tree = JExpr::Method(left.tree, dot, name, at, lp, items, commas, rp);
        let tree = Boxed::new(self.alloc, tree)?;
        Ok(Some((ExprFound { tree, depth }, rest)))
    }

    #[tactic(auto, using(java_expr_grammar::proofs::LawsToCite::expr_parts), unfolding(java_expr_grammar::specs::Reading::element))]
    fn element<'a>(
        &self,
        left: ExprFound,
        lp: Position,
        pieces: Pieces<'a>,
    ) -> Result<Option<(ExprFound, Pieces<'a>)>, NoMemory>
        requires nests { Nests self.now.depth (F.pre self.now.read) (F.post self.now.read) }
        requires room { self.now.depth < usize.MAX }
        requires fits { IsExpr self.now.depth left }
        ensures { Gives expr_found (ExprFits (self.now.depth + 1)) (g.element self.now.depth left.tree lp (shown pieces.now)) result }
    {
        let (index, rest) = found_or_let_go!(self.sub(pieces, 1), left);
        let Some((rp, rest)) = close_square(rest) else {
            let_go(left);
            let_go(index);
            return Ok(None);
        };
        let depth = larger(left.depth, index.depth) + 1;
        let tree = JExpr::Element(left.tree, lp, index.tree, rp);
        let tree = Boxed::new(self.alloc, tree)?;
        Ok(Some((ExprFound { tree, depth }, rest)))
    }

    #[tactic(auto, using(java_expr_grammar::proofs::LawsToCite::expr_parts))]
    fn postfix<'a>(
        &self,
        op: PostfixOp,
        at: Position,
        left: ExprFound,
        pieces: Pieces<'a>,
    ) -> Result<Option<(ExprFound, Pieces<'a>)>, NoMemory>
        requires nests { Nests self.now.depth (F.pre self.now.read) (F.post self.now.read) }
        requires room { self.now.depth < usize.MAX }
        requires fits { IsExpr self.now.depth left }
        ensures { Gives expr_found (ExprFits (self.now.depth + 1)) (Some (e.Postfix left.tree op at, shown pieces.now)) result }
    {
        let ExprFound { tree, depth } = left;
        let tree = Boxed::new(self.alloc, JExpr::Postfix(tree, op, at))?;
        Ok(Some((
            ExprFound {
                tree,
                depth: depth + 1,
            },
            pieces,
        )))
    }

    /// Behind `instanceof`.
    #[tactic(auto, using(java_expr_grammar::proofs::LawsToCite::expr_parts), unfolding(java_expr_grammar::specs::Reading::finish))]
    fn test<'a>(
        &self,
        at: Position,
        left: ExprFound,
        pieces: Pieces<'a>,
    ) -> Result<Option<(ExprFound, Pieces<'a>)>, NoMemory>
        requires nests { Nests self.now.depth (F.pre self.now.read) (F.post self.now.read) }
        requires room { self.now.depth < usize.MAX }
        requires fits { IsExpr self.now.depth left }
        ensures { Gives expr_found (ExprFits (self.now.depth + 1)) (g.finish self.now.depth (sx.Instanceof at) left.tree (shown pieces.now)) result }
    {
        let (to, rest) = found_or_let_go!(read_type(self.alloc, pieces, self.depth), left);
        let TypeFound {
            tree: to,
            depth: other,
        } = to;
        let depth = larger(left.depth, other) + 1;
        let tree = Boxed::new(self.alloc, JExpr::Instanceof(left.tree, at, to))?;
        Ok(Some((ExprFound { tree, depth }, rest)))
    }

    /// Behind a suffix.
    #[tactic(auto, using(java_expr_grammar::proofs::LawsToCite::expr_parts), unfolding(java_expr_grammar::specs::Reading::finish))]
    pub fn finish<'a>(
        &self,
        suffix: Suffix,
        left: ExprFound,
        pieces: Pieces<'a>,
    ) -> Result<Option<(ExprFound, Pieces<'a>)>, NoMemory>
        requires nests { Nests self.now.depth (F.pre self.now.read) (F.post self.now.read) }
        requires room { self.now.depth < usize.MAX }
        requires fits { IsExpr self.now.depth left }
        ensures { Gives expr_found (ExprFits (self.now.depth + 1)) (g.finish self.now.depth suffix left.tree (shown pieces.now)) result }
    {
        match suffix {
            Suffix::Binary(op, at) => self.binary(op, at, left, pieces),
            Suffix::Assign(op, at) => self.assign(op, at, left, pieces),
            Suffix::Question(at) => self.choice(left, at, pieces),
            Suffix::Dot(at) => self.dotted(at, left, pieces),
            Suffix::Square(at) => self.element(left, at, pieces),
            Suffix::Postfix(op, at) => self.postfix(op, at, left, pieces),
            Suffix::Instanceof(at) => self.test(at, left, pieces),
        }
    }
}
