//! Statements that are a `try` (JLS 14.20).

ghost use Rattle.std.specs.Prelude.{◌≡◌, ◌≤◌, ◌<◌, ◌+◌, ◌^◌, suc, length};
ghost use Rattle.java_expr_grammar.specs.Reading as e;
ghost use Rattle.java_unit_grammar.specs.Reading as r;
ghost use Rattle.java_token_cursor.specs.Shown.{shown};
ghost use Rattle.java_type_parser.specs.Gives.{Always, Gives};
ghost use Rattle.java_block_parser.specs.Asks.{Nests, Shorter, braced, catch_behind, catch_opened, found};

use crate::asks::{Answer, Ask, Braced, Part, Until};
use crate::grammar::Grammar;
use crate::tokens::{catch_word, close, open_round, stops};
use java_token_cursor::{Head, Pieces, first};
use java_tree::{JParam, JTypedParam, Keyword, Position};
use java_type_parser::{ident, let_go, onward, read_type};
use java_unit_grammar::{JCatch, JStatement};
use sqlite_items::{Boxed, Items};
use std::alloc::Global;

/// A type and a name.
#[tactic(auto, unfolding(java_expr_grammar::specs::Reading::typed_by))]
fn typed_by<'a>(
    alloc: Global,
    is_final: Option<Position>,
    pieces: Pieces<'a>,
    depth: usize,
) -> Answer<'a, JTypedParam>
    ensures { Gives found Always (e.typed_by (e.type_read depth) is_final (shown pieces.now)) result }
{
    let Some((found, rest)) = read_type(alloc, pieces, depth)? else {
        return Ok(None);
    };
    match ident(alloc, rest) {
        Ok(Some((name, rest))) => {
            let JParam { name, at } = name;
            let kind = found.tree;
            let tree = JTypedParam {
                is_final,
                kind,
                name,
                at,
            };
            Ok(Some((tree, rest)))
        }
        Ok(None) => {
            let_go(found);
            Ok(None)
        }
        Err(error) => {
            let_go(found);
            Err(error)
        }
    }
}

/// `final` where it stands, a type and a name.
fn typed_step<'a>(alloc: Global, pieces: Pieces<'a>, depth: usize) -> Answer<'a, JTypedParam>
    ensures { Gives found Always (e.typed_step (e.type_read depth) (shown pieces.now)) result }
{
    match first(pieces) {
        Head::Word(Keyword::Final, at, rest) => typed_by(alloc, Some(at), rest, depth),
        _ => typed_by(alloc, None, pieces, depth),
    }
}

/// What is caught, no deeper than `depth + 1`.
fn caught<'a>(alloc: Global, pieces: Pieces<'a>, depth: usize) -> Answer<'a, JTypedParam>
    ensures { Gives found (Shorter pieces.now) (e.typed_read (suc depth) (shown pieces.now)) result }
{
    typed_step(alloc, pieces, depth)
}

impl<F: for<'a, 'b> Fn(Global, Pieces<'a>, Ask<'b>, usize, usize) -> Answer<'a, Part>> Grammar<F> {
    /// `catch` and what is caught.
    #[tactic(auto, unfolding(java_unit_grammar::specs::Reading::catch_read))]
    fn catch_read<'a>(&self, pieces: Pieces<'a>) -> Answer<'a, Boxed<JCatch>>
        requires nests { Nests self.now.depth self.now.steps (F.pre self.now.read) (F.post self.now.read) }
        requires size { length pieces.now < 2 ^ 32 }
        ensures { Gives found (Shorter pieces.now) (r.catch_read (r.readers self.now.steps) self.now.depth (shown pieces.now)) result }
    {
        let Some((at, rest)) = catch_word(pieces) else {
            return Ok(None);
        };
        let Some((opens, rest)) = open_round(rest) else {
            return Ok(None);
        };
        self.catch_opened(at, opens, rest)
    }

    /// Behind the `(` of a catch.
    fn catch_opened<'a>(
        &self,
        at: Position,
        opens: Position,
        pieces: Pieces<'a>,
    ) -> Answer<'a, Boxed<JCatch>>
        requires nests { Nests self.now.depth self.now.steps (F.pre self.now.read) (F.post self.now.read) }
        requires size { length pieces.now < 2 ^ 32 }
        ensures { Gives found (Shorter pieces.now) (catch_opened (r.readers self.now.steps) self.now.depth at opens (shown pieces.now)) result }
    {
        let Some((caught, rest)) = caught(self.alloc, pieces, self.depth)? else {
            return Ok(None);
        };
        self.catch_behind(at, opens, caught, rest)
    }

    /// Behind what is caught.
    fn catch_behind<'a>(
        &self,
        at: Position,
        opens: Position,
        caught: JTypedParam,
        pieces: Pieces<'a>,
    ) -> Answer<'a, Boxed<JCatch>>
        requires nests { Nests self.now.depth self.now.steps (F.pre self.now.read) (F.post self.now.read) }
        requires size { length pieces.now < 2 ^ 32 }
        ensures { Gives found (Shorter pieces.now) (catch_behind (r.readers self.now.steps) self.now.depth at opens caught (shown pieces.now)) result }
    {
        let Some((closes, rest)) = close(pieces) else {
            let_go(caught);
            return Ok(None);
        };
        match self.block(rest, self.depth) {
            Ok(Some((block, rest))) => {
                let (left, statements, right) = block;
                let tree = JCatch {
                    at,
                    opens,
                    caught,
                    closes,
                    left,
                    statements,
                    right,
                };
                let tree = Boxed::new(self.alloc, tree)?;
                Ok(Some((tree, rest)))
            }
            Ok(None) => {
                let_go(caught);
                Ok(None)
            }
            Err(error) => {
                let_go(caught);
                Err(error)
            }
        }
    }

    /// Catches, as many as there are.
    #[tactic(auto, using(java_type_parser::proofs::LawsToCite::length_shown))]
    fn catches<'a>(&self, mut pieces: Pieces<'a>) -> Answer<'a, Items<JCatch>>
        requires nests { Nests self.now.depth self.now.steps (F.pre self.now.read) (F.post self.now.read) }
        requires size { length pieces.now < 2 ^ 32 }
        ensures { Gives found (Shorter pieces.entry.now) (r.until r.no_catch (r.catch_read (r.readers self.now.steps) self.now.depth) (shown pieces.entry.now)) result }
    {
        let mut items = Items::new(self.alloc);
        for _turn in 0..pieces.len() {
            if stops(Until::NoCatch, pieces) {
                return Ok(Some((items, pieces)));
            }
            let Some((item, rest)) = self.catch_read(pieces)? else {
                return Ok(None);
            };
            items.push(item.into_inner())?;
            pieces = onward(rest);
        }
        if stops(Until::NoCatch, pieces) {
            Ok(Some((items, pieces)))
        } else {
            Ok(None)
        }
    }

    /// Behind `finally`.
    #[tactic(auto, unfolding(java_unit_grammar::specs::Reading::finally_read))]
    fn finally_read<'a>(
        &self,
        at: Position,
        block: Braced<JStatement>,
        catches: Items<JCatch>,
        last: Position,
        pieces: Pieces<'a>,
    ) -> Answer<'a, Boxed<JStatement>>
        requires nests { Nests self.now.depth self.now.steps (F.pre self.now.read) (F.post self.now.read) }
        requires size { length pieces.now < 2 ^ 32 }
        ensures { Gives found (Shorter pieces.now) (r.finally_read (r.readers self.now.steps) self.now.depth at (braced block) catches last (shown pieces.now)) result }
    {
        match self.block(pieces, self.depth) {
            Ok(Some((end, rest))) => {
                let (last_left, lasts, last_right) = end;
                let (left, items, right) = block;
                let tree = JStatement::TryFinally(
                    at, left, items, right, catches, last, last_left, lasts, last_right,
                );
                let tree = Boxed::new(self.alloc, tree)?;
                Ok(Some((tree, rest)))
            }
            Ok(None) => {
                let_go((block, catches));
                Ok(None)
            }
            Err(error) => {
                let_go((block, catches));
                Err(error)
            }
        }
    }

    /// Behind the catches.
    #[tactic(auto, using(crate::proofs::Steps::ends))]
    fn try_end<'a>(
        &self,
        at: Position,
        block: Braced<JStatement>,
        catches: Items<JCatch>,
        pieces: Pieces<'a>,
    ) -> Answer<'a, Boxed<JStatement>>
        requires nests { Nests self.now.depth self.now.steps (F.pre self.now.read) (F.post self.now.read) }
        requires size { length pieces.now < 2 ^ 32 }
        ensures { Gives found (Shorter pieces.now) (r.try_end (r.readers self.now.steps) self.now.depth at (braced block) catches (shown pieces.now)) result }
    {
        if let Head::Word(Keyword::Finally, last, rest) = first(pieces) {
            return self.finally_read(at, block, catches, last, rest);
        }
        if catches.is_empty() {
            let_go((block, catches));
            return Ok(None);
        }
        let (left, items, right) = block;
        let tree = Boxed::new(self.alloc, JStatement::Try(at, left, items, right, catches))?;
        Ok(Some((tree, pieces)))
    }

    /// Behind `try`.
    #[tactic(auto, unfolding(java_unit_grammar::specs::Reading::try_read))]
    pub fn try_read<'a>(&self, at: Position, pieces: Pieces<'a>) -> Answer<'a, Boxed<JStatement>>
        requires nests { Nests self.now.depth self.now.steps (F.pre self.now.read) (F.post self.now.read) }
        requires size { length pieces.now < 2 ^ 32 }
        ensures { Gives found (Shorter pieces.now) (r.try_read (r.readers self.now.steps) self.now.depth at (shown pieces.now)) result }
    {
        let Some((block, rest)) = self.block(pieces, self.depth)? else {
            return Ok(None);
        };
        match self.catches(rest) {
            Ok(Some((catches, rest))) => self.try_end(at, block, catches, rest),
            Ok(None) => {
                let_go(block);
                Ok(None)
            }
            Err(error) => {
                let_go(block);
                Err(error)
            }
        }
    }
}
