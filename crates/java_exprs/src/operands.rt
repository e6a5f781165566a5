//! What no suffix makes.

ghost use Rattle.std.specs.Prelude.{◌≡◌, ◌≤◌, ◌<◌, ◌+◌, max, Some, None};
ghost use Rattle.java_tree.specs.Seen.{literal};
ghost use Rattle.java_tree.specs.Trees as s;
ghost use Rattle.java_tree.specs.declared.exprs.PrefixOp.TheVariants as prefix;
ghost use Rattle.java_tree.specs.declared.exprs.JExpr.TheVariants as e;
ghost use Rattle.java_tree.specs.declared.exprs.JParams.TheVariants as params;
ghost use Rattle.java_expr_grammar.specs.Reading as r;
ghost use Rattle.java_token_cursor.specs.Shown.{shown};
ghost use Rattle.java_type_parser.specs.Gives.{Gives};
ghost use Rattle.java_exprs.specs.Rules as g;
ghost use Rattle.java_exprs.specs.Exprs.{OperandFits, expr_found, Nests, literal_read, minus_read};

use crate::found::{ExprFound, ExprsFound, Params};
use crate::grammar::Grammar;
use j2k_base::{Name, NoMemory};
use java_token_cursor::{Head, Pieces, close, copied, copied_literal, dot, first, open_round};
use java_tree::{JExpr, JLiteral, JParam, JParams, Keyword, Mark, Position, PrefixOp, TokenKind};
use java_type_parser::{found_or_let_go, ident, is_least, let_go, prefix};
use sqlite_items::Boxed;
use std::alloc::Global;

impl<
    F: Fn(Global, Pieces<'_>, usize, usize) -> Result<Option<(ExprFound, Pieces<'_>)>, NoMemory>,
> Grammar<F> {
    #[tactic(auto, using(java_expr_grammar::proofs::LawsToCite::expr_parts), unfolding(java_expr_grammar::specs::Reading::call))]
    fn call<'a>(
        &self,
        name: Name,
        at: Position,
        lp: Position,
        pieces: Pieces<'a>,
    ) -> Result<Option<(ExprFound, Pieces<'a>)>, NoMemory>
        requires nests { Nests self.now.depth (F.pre self.now.read) (F.post self.now.read) }
        requires room { self.now.depth < usize.MAX }
        ensures { Gives expr_found (OperandFits self.now.depth) (g.call self.now.depth name at lp (shown pieces.now)) result }
    {
        let (args, rest) = found_or_let_go!(self.args_from(pieces), name);
        let Some((rp, rest)) = close(rest) else {
            let_go(name);
            let_go(args);
            return Ok(None);
        };
        let ExprsFound {
            items,
            commas,
            deepest,
        } = args;
        let tree = JExpr::Call(name, at, lp, items, commas, rp);
        let tree = Boxed::new(self.alloc, tree)?;
        Ok(Some((
            ExprFound {
                tree,
                depth: deepest + 1,
            },
            rest,
        )))
    }

    #[tactic(auto, using(java_expr_grammar::proofs::LawsToCite::expr_parts), unfolding(java_expr_grammar::specs::Reading::super_args))]
    fn super_args<'a>(
        &self,
        above: Position,
        dot: Position,
        name: JParam,
        lp: Position,
        pieces: Pieces<'a>,
    ) -> Result<Option<(ExprFound, Pieces<'a>)>, NoMemory>
        requires nests { Nests self.now.depth (F.pre self.now.read) (F.post self.now.read) }
        requires room { self.now.depth < usize.MAX }
        ensures { Gives expr_found (OperandFits self.now.depth) (g.super_args self.now.depth above dot name lp (shown pieces.now)) result }
    {
        let (args, rest) = found_or_let_go!(self.args_from(pieces), name);
        let Some((rp, rest)) = close(rest) else {
            let_go(name);
            let_go(args);
            return Ok(None);
        };
        let ExprsFound {
            items,
            commas,
            deepest,
        } = args;
        let JParam { name, at } = name;
        let tree = JExpr::SuperCall(above, dot, name, at, lp, items, commas, rp);
        let tree = Boxed::new(self.alloc, tree)?;
        Ok(Some((
            ExprFound {
                tree,
                depth: deepest + 1,
            },
            rest,
        )))
    }

    #[tactic(auto, using(java_expr_grammar::proofs::LawsToCite::expr_parts), unfolding(java_expr_grammar::specs::Reading::super_call))]
    fn super_call<'a>(
        &self,
        above: Position,
        pieces: Pieces<'a>,
    ) -> Result<Option<(ExprFound, Pieces<'a>)>, NoMemory>
        requires nests { Nests self.now.depth (F.pre self.now.read) (F.post self.now.read) }
        requires room { self.now.depth < usize.MAX }
        ensures { Gives expr_found (OperandFits self.now.depth) (g.super_call self.now.depth above (shown pieces.now)) result }
    {
        let Some((at, rest)) = dot(pieces) else {
            return Ok(None);
        };
        let Some((name, rest)) = ident(self.alloc, rest)? else {
            return Ok(None);
        };
        let Some((lp, rest)) = open_round(rest) else {
            let_go(name);
            return Ok(None);
        };
        self.super_args(above, at, name, lp, rest)
    }

    #[tactic(auto, using(java_expr_grammar::proofs::LawsToCite::expr_parts))]
    fn literal<'a>(
        &self,
        kind: &TokenKind,
        at: Position,
        pieces: Pieces<'a>,
    ) -> Result<Option<(ExprFound, Pieces<'a>)>, NoMemory>
        requires nests { Nests self.now.depth (F.pre self.now.read) (F.post self.now.read) }
        requires room { self.now.depth < usize.MAX }
        ensures { Gives expr_found (OperandFits self.now.depth) (literal_read (literal kind.now) at (shown pieces.now)) result }
    {
        let value = copied_literal(self.alloc, kind)?;
        if is_least(&value) {
            let_go(value);
            return Ok(None);
        }
        let tree = Boxed::new(self.alloc, JExpr::Literal(value, at))?;
        Ok(Some((ExprFound { tree, depth: 1 }, pieces)))
    }

    #[tactic(auto, using(java_expr_grammar::proofs::LawsToCite::expr_parts))]
    fn this<'a>(
        &self,
        at: Position,
        pieces: Pieces<'a>,
    ) -> Result<Option<(ExprFound, Pieces<'a>)>, NoMemory>
        requires nests { Nests self.now.depth (F.pre self.now.read) (F.post self.now.read) }
        requires room { self.now.depth < usize.MAX }
        ensures { Gives expr_found (OperandFits self.now.depth) (Some (e.This at, shown pieces.now)) result }
    {
        let tree = Boxed::new(self.alloc, JExpr::This(at))?;
        Ok(Some((ExprFound { tree, depth: 1 }, pieces)))
    }

    #[tactic(auto, using(java_expr_grammar::proofs::LawsToCite::expr_parts))]
    fn worded<'a>(
        &self,
        word: Keyword,
        at: Position,
        pieces: Pieces<'a>,
    ) -> Result<Option<(ExprFound, Pieces<'a>)>, NoMemory>
        requires nests { Nests self.now.depth (F.pre self.now.read) (F.post self.now.read) }
        requires room { self.now.depth < usize.MAX }
        ensures { Gives expr_found (OperandFits self.now.depth) (g.worded self.now.depth word at (shown pieces.now)) result }
    {
        match word {
            Keyword::This => self.this(at, pieces),
            Keyword::Super => self.super_call(at, pieces),
            Keyword::New => self.creation(at, pieces),
            _ => Ok(None),
        }
    }

    #[tactic(auto, using(java_expr_grammar::proofs::LawsToCite::expr_parts))]
    fn name<'a>(
        &self,
        name: Name,
        at: Position,
        pieces: Pieces<'a>,
    ) -> Result<Option<(ExprFound, Pieces<'a>)>, NoMemory>
        requires nests { Nests self.now.depth (F.pre self.now.read) (F.post self.now.read) }
        requires room { self.now.depth < usize.MAX }
        ensures { Gives expr_found (OperandFits self.now.depth) (Some (e.Name name at, shown pieces.now)) result }
    {
        let tree = Boxed::new(self.alloc, JExpr::Name(name, at))?;
        Ok(Some((ExprFound { tree, depth: 1 }, pieces)))
    }

    /// A lambda of one parameter.
    #[tactic(auto, using(java_expr_grammar::proofs::LawsToCite::expr_parts))]
    fn lambda_one<'a>(
        &self,
        name: Name,
        at: Position,
        pieces: Pieces<'a>,
    ) -> Result<Option<(ExprFound, Pieces<'a>)>, NoMemory>
        requires nests { Nests self.now.depth (F.pre self.now.read) (F.post self.now.read) }
        requires room { self.now.depth < usize.MAX }
        ensures { Gives expr_found (OperandFits self.now.depth) (g.lambda self.now.depth (params.One (record { name = name; at = at })) (shown pieces.now)) result }
    {
        let tree = JParams::One(JParam { name, at });
        self.lambda(Params { tree, depth: 1 }, pieces)
    }

    #[tactic(auto, using(java_expr_grammar::proofs::LawsToCite::expr_parts), unfolding(java_expr_grammar::specs::Reading::named))]
    fn named<'a>(
        &self,
        name: &Name,
        at: Position,
        pieces: Pieces<'a>,
    ) -> Result<Option<(ExprFound, Pieces<'a>)>, NoMemory>
        requires nests { Nests self.now.depth (F.pre self.now.read) (F.post self.now.read) }
        requires room { self.now.depth < usize.MAX }
        ensures { Gives expr_found (OperandFits self.now.depth) (g.named self.now.depth name.now at (shown pieces.now)) result }
    {
        let name = copied(self.alloc, name)?;
        match first(pieces) {
            Head::Mark(Mark::OpenRound, lp, rest) => self.call(name, at, lp, rest),
            Head::Mark(Mark::Arrow, _, _) | Head::Block(_, _, _) => {
                self.lambda_one(name, at, pieces)
            }
            _ => self.name(name, at, pieces),
        }
    }

    #[tactic(auto, using(java_expr_grammar::proofs::LawsToCite::expr_parts), unfolding(java_expr_grammar::specs::Reading::prefixed))]
    fn prefixed<'a>(
        &self,
        op: PrefixOp,
        at: Position,
        pieces: Pieces<'a>,
    ) -> Result<Option<(ExprFound, Pieces<'a>)>, NoMemory>
        requires nests { Nests self.now.depth (F.pre self.now.read) (F.post self.now.read) }
        requires room { self.now.depth < usize.MAX }
        ensures { Gives expr_found (OperandFits self.now.depth) (g.prefixed self.now.depth (Some op) at (shown pieces.now)) result }
    {
        let Some((inner, rest)) = self.sub(pieces, 14)? else {
            return Ok(None);
        };
        let ExprFound { tree, depth } = inner;
        let tree = Boxed::new(self.alloc, JExpr::Prefix(op, at, tree))?;
        Ok(Some((
            ExprFound {
                tree,
                depth: depth + 1,
            },
            rest,
        )))
    }

    /// `-` and the literal that only it takes.
    #[tactic(auto, using(java_expr_grammar::proofs::LawsToCite::expr_parts))]
    fn least<'a>(
        &self,
        minus: Position,
        literal: JLiteral,
        at: Position,
        pieces: Pieces<'a>,
    ) -> Result<Option<(ExprFound, Pieces<'a>)>, NoMemory>
        requires nests { Nests self.now.depth (F.pre self.now.read) (F.post self.now.read) }
        requires room { self.now.depth < usize.MAX }
        ensures { Gives expr_found (OperandFits self.now.depth) (Some (e.MinusLeast minus literal at, shown pieces.now)) result }
    {
        let tree = Boxed::new(self.alloc, JExpr::MinusLeast(minus, literal, at))?;
        Ok(Some((ExprFound { tree, depth: 2 }, pieces)))
    }

    /// A `-` before a literal: `rest` stands behind that, and `pieces` begins with it.
    #[tactic(auto, using(java_expr_grammar::proofs::LawsToCite::expr_parts))]
    fn minus_literal<'a>(
        &self,
        minus: Position,
        kind: &TokenKind,
        at: Position,
        rest: Pieces<'a>,
        pieces: Pieces<'a>,
    ) -> Result<Option<(ExprFound, Pieces<'a>)>, NoMemory>
        requires nests { Nests self.now.depth (F.pre self.now.read) (F.post self.now.read) }
        requires room { self.now.depth < usize.MAX }
        ensures { Gives expr_found (OperandFits self.now.depth) (minus_read self.now.depth minus (literal kind.now) at (shown rest.now) (shown pieces.now)) result }
    {
        let value = copied_literal(self.alloc, kind)?;
        if is_least(&value) {
            self.least(minus, value, at, rest)
        } else {
            let_go(value);
            self.prefixed(PrefixOp::Minus, minus, pieces)
        }
    }

    #[tactic(auto, using(java_expr_grammar::proofs::LawsToCite::expr_parts))]
    fn minus<'a>(
        &self,
        at: Position,
        pieces: Pieces<'a>,
    ) -> Result<Option<(ExprFound, Pieces<'a>)>, NoMemory>
        requires nests { Nests self.now.depth (F.pre self.now.read) (F.post self.now.read) }
        requires room { self.now.depth < usize.MAX }
        ensures { Gives expr_found (OperandFits self.now.depth) (g.minus self.now.depth at (shown pieces.now)) result }
    {
        match first(pieces) {
            Head::Literal(kind, second, rest) => {
                self.minus_literal(at, kind, second, rest, pieces)
            }
            _ => self.prefixed(PrefixOp::Minus, at, pieces),
        }
    }

    #[tactic(auto, using(java_expr_grammar::proofs::LawsToCite::expr_parts))]
    fn marked<'a>(
        &self,
        mark: Mark,
        at: Position,
        pieces: Pieces<'a>,
    ) -> Result<Option<(ExprFound, Pieces<'a>)>, NoMemory>
        requires nests { Nests self.now.depth (F.pre self.now.read) (F.post self.now.read) }
        requires room { self.now.depth < usize.MAX }
        ensures { Gives expr_found (OperandFits self.now.depth) (g.marked self.now.depth mark at (shown pieces.now)) result }
    {
        match mark {
            Mark::OpenRound => self.group(at, pieces),
            Mark::OpenCurly => self.braces(at, pieces),
            Mark::Minus => self.minus(at, pieces),
            _ => self.signed(mark, at, pieces),
        }
    }

    /// A prefix, where the mark is one.
    #[tactic(auto, using(java_expr_grammar::proofs::LawsToCite::expr_parts), unfolding(java_expr_grammar::specs::Reading::prefixed))]
    fn signed<'a>(
        &self,
        mark: Mark,
        at: Position,
        pieces: Pieces<'a>,
    ) -> Result<Option<(ExprFound, Pieces<'a>)>, NoMemory>
        requires nests { Nests self.now.depth (F.pre self.now.read) (F.post self.now.read) }
        requires room { self.now.depth < usize.MAX }
        ensures { Gives expr_found (OperandFits self.now.depth) (g.prefixed self.now.depth (r.prefix_by mark) at (shown pieces.now)) result }
    {
        let Some(op) = prefix(mark) else {
            return Ok(None);
        };
        self.prefixed(op, at, pieces)
    }

    #[tactic(auto, using(java_expr_grammar::proofs::LawsToCite::expr_parts), unfolding(java_expr_grammar::specs::Reading::operand))]
    pub fn operand<'a>(
        &self,
        pieces: Pieces<'a>,
    ) -> Result<Option<(ExprFound, Pieces<'a>)>, NoMemory>
        requires nests { Nests self.now.depth (F.pre self.now.read) (F.post self.now.read) }
        requires room { self.now.depth < usize.MAX }
        ensures { Gives expr_found (OperandFits self.now.depth) (g.operand self.now.depth (shown pieces.now)) result }
    {
        match first(pieces) {
            Head::Id(name, at, rest) => self.named(name, at, rest),
            Head::Literal(kind, at, rest) => self.literal(kind, at, rest),
            Head::Word(word, at, rest) => self.worded(word, at, rest),
            Head::Mark(mark, at, rest) => self.marked(mark, at, rest),
            _ => Ok(None),
        }
    }
}
