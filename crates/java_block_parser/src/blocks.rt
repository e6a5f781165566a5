//! Blocks.

ghost use Rattle.std.specs.Prelude.{◌≡◌, ◌≤◌, ◌<◌, ◌+◌, ◌^◌, ◌∷◌, [], length, IfOk};
ghost use Rattle.java_unit_grammar.specs.Reading as r;
ghost use Rattle.java_token_cursor.specs.Shown.{shown};
ghost use Rattle.java_type_parser.specs.Gives.{Gives};
ghost use Rattle.java_block_parser.specs.Asks.{Nests, Shorter, braced_end, braced_found, found};

use crate::asks::{Answer, Ask, Braced, Part, Until};
use crate::grammar::Grammar;
use crate::tokens::{close_curly, open_curly};
use j2k_base::NoMemory;
use java_body_cuts::begins_close;
use java_modifier_rules::Role;
use java_token_cursor::Pieces;
use java_tree::Position;
use java_type_parser::let_go;
use java_unit_grammar::JStatement;
use sqlite_items::{Boxed, Items};
use std::alloc::Global;

fn alone(alloc: Global, first: Boxed<JStatement>) -> Result<Items<JStatement>, NoMemory>
    ensures { IfOk result (λ xs. xs ≡ first ∷ []) }
{
    let mut items = Items::new(alloc);
    match items.push(first.into_inner()) {
        Ok(()) => Ok(items),
        Err(error) => {
            let_go(items);
            Err(error.into())
        }
    }
}

/// The statement and those behind it.
fn behind(
    alloc: Global,
    first: Boxed<JStatement>,
    others: Items<JStatement>,
) -> Result<Items<JStatement>, NoMemory>
    ensures { IfOk result (λ xs. xs ≡ first ∷ others) }
{
    let mut items = match alone(alloc, first) {
        Ok(items) => items,
        Err(error) => {
            let_go(others);
            return Err(error);
        }
    };
    match items.append(others) {
        Ok(()) => Ok(items),
        Err(error) => {
            let_go(items);
            Err(error.into())
        }
    }
}

/// What stands in braces, where a `}` comes first of the pieces.
pub fn closed<'a, T: Drop>(
    opens: Position,
    items: Items<T>,
    pieces: Pieces<'a>,
) -> Answer<'a, Braced<T>>
    ensures { Gives braced_found (Shorter pieces.now) (braced_end opens items (shown pieces.now)) result }
{
    match close_curly(pieces) {
        Some((closes, rest)) => Ok(Some(((opens, items, closes), rest))),
        None => {
            let_go(items);
            Ok(None)
        }
    }
}

impl<F: for<'a, 'b> Fn(Global, Pieces<'a>, Ask<'b>, usize, usize) -> Answer<'a, Part>> Grammar<F> {
    /// A statement that is the part of another.
    pub fn sole<'a>(&self, pieces: Pieces<'a>) -> Answer<'a, Boxed<JStatement>>
        requires nests { Nests self.now.depth self.now.steps (F.pre self.now.read) (F.post self.now.read) }
        requires size { length pieces.now < 2 ^ 32 }
        ensures { Gives found (Shorter pieces.now) (r.sole (r.readers self.now.steps) self.now.depth (shown pieces.now)) result }
    {
        self.statement(pieces, Role::Sole, self.depth)
    }

    /// Statements in braces, each no deeper than `depth`.
    #[tactic(auto, unfolding(java_unit_grammar::specs::Reading::braced))]
    pub fn inner_braces<'a>(
        &self,
        pieces: Pieces<'a>,
        depth: usize,
    ) -> Answer<'a, Braced<JStatement>>
        requires nests { Nests self.now.depth self.now.steps (F.pre self.now.read) (F.post self.now.read) }
        requires size { length pieces.now < 2 ^ 32 }
        requires room { depth + self.now.steps ≤ 1000 }
        ensures { Gives braced_found (Shorter pieces.now) (r.braced (r.inner_list (r.readers self.now.steps) depth) (shown pieces.now)) result }
    {
        let Some((opens, rest)) = open_curly(pieces) else {
            return Ok(None);
        };
        match self.statements(rest, Until::Close, depth) {
            Ok(Some((items, rest))) => closed(opens, items, rest),
            Ok(None) => Ok(None),
            Err(error) => Err(error),
        }
    }

    /// A block no deeper than `depth`.
    #[tactic(auto, using(crate::proofs::Steps::blocks))]
    pub fn block<'a>(&self, pieces: Pieces<'a>, depth: usize) -> Answer<'a, Braced<JStatement>>
        requires nests { Nests self.now.depth self.now.steps (F.pre self.now.read) (F.post self.now.read) }
        requires size { length pieces.now < 2 ^ 32 }
        requires room { depth + self.now.steps ≤ 1000 }
        ensures { Gives braced_found (Shorter pieces.now) (r.block (r.readers self.now.steps) depth (shown pieces.now)) result }
    {
        if depth == 0 {
            return Ok(None);
        }
        self.inner_braces(pieces, depth - 1)
    }

    /// The statements of a constructor as far as the `}`.
    #[tactic(auto, unfolding(java_unit_grammar::specs::Reading::first_list))]
    fn first_list<'a>(&self, pieces: Pieces<'a>, depth: usize) -> Answer<'a, Items<JStatement>>
        requires nests { Nests self.now.depth self.now.steps (F.pre self.now.read) (F.post self.now.read) }
        requires size { length pieces.now < 2 ^ 32 }
        requires room { depth + self.now.steps ≤ 1000 }
        ensures { Gives found (Shorter pieces.now) (r.first_list (r.readers self.now.steps) depth (shown pieces.now)) result }
    {
        if begins_close(pieces) {
            return Ok(Some((Items::new(self.alloc), pieces)));
        }
        let Some((item, rest)) = self.statement(pieces, Role::First, depth)? else {
            return Ok(None);
        };
        match self.statements(rest, Until::Close, depth) {
            Ok(Some((items, rest))) => Ok(Some((behind(self.alloc, item, items)?, rest))),
            Ok(None) => {
                let_go(item);
                Ok(None)
            }
            Err(error) => {
                let_go(item);
                Err(error)
            }
        }
    }

    #[tactic(auto, unfolding(java_unit_grammar::specs::Reading::braced))]
    fn first_braces<'a>(&self, pieces: Pieces<'a>, depth: usize) -> Answer<'a, Braced<JStatement>>
        requires nests { Nests self.now.depth self.now.steps (F.pre self.now.read) (F.post self.now.read) }
        requires size { length pieces.now < 2 ^ 32 }
        requires room { depth + self.now.steps ≤ 1000 }
        ensures { Gives braced_found (Shorter pieces.now) (r.braced (r.first_list (r.readers self.now.steps) depth) (shown pieces.now)) result }
    {
        let Some((opens, rest)) = open_curly(pieces) else {
            return Ok(None);
        };
        match self.first_list(rest, depth) {
            Ok(Some((items, rest))) => closed(opens, items, rest),
            Ok(None) => Ok(None),
            Err(error) => Err(error),
        }
    }

    /// The block of a constructor, no deeper than `depth`.
    #[tactic(auto, using(crate::proofs::Steps::blocks))]
    pub fn first_block<'a>(
        &self,
        pieces: Pieces<'a>,
        depth: usize,
    ) -> Answer<'a, Braced<JStatement>>
        requires nests { Nests self.now.depth self.now.steps (F.pre self.now.read) (F.post self.now.read) }
        requires size { length pieces.now < 2 ^ 32 }
        requires room { depth + self.now.steps ≤ 1000 }
        ensures { Gives braced_found (Shorter pieces.now) (r.first_block (r.readers self.now.steps) depth (shown pieces.now)) result }
    {
        if depth == 0 {
            return Ok(None);
        }
        self.first_braces(pieces, depth - 1)
    }
}
