//! Lists of parts, each as far as what ends it.

ghost use Rattle.std.specs.Prelude.{◌≡◌, ◌≤◌, ◌<◌, ◌+◌, ◌^◌, length};
ghost use Rattle.java_unit_grammar.specs.Standing as s;
ghost use Rattle.java_unit_grammar.specs.Reading as r;
ghost use Rattle.java_token_cursor.specs.Shown.{shown};
ghost use Rattle.java_type_parser.specs.Gives.{Gives};
ghost use Rattle.java_modifier_rules.specs.Fits.{owner_seen};
ghost use Rattle.java_block_parser.specs.Asks.{Nests, Shorter, found, stop};

use crate::asks::{Answer, Ask, Part, Until};
use crate::grammar::Grammar;
use crate::tokens::stops;
use java_modifier_rules::{Owner, Role};
use java_token_cursor::Pieces;
use java_type_parser::onward;
use java_unit_grammar::{JCase, JMember, JStatement};
use sqlite_items::Items;
use std::alloc::Global;

impl<F: for<'a, 'b> Fn(Global, Pieces<'a>, Ask<'b>, usize, usize) -> Answer<'a, Part>> Grammar<F> {
    /// Statements, each no deeper than `depth`.
    #[tactic(auto, using(java_type_parser::proofs::LawsToCite::length_shown))]
    pub fn statements<'a>(
        &self,
        mut pieces: Pieces<'a>,
        until: Until,
        depth: usize,
    ) -> Answer<'a, Items<JStatement>>
        requires nests { Nests self.now.depth self.now.steps (F.pre self.now.read) (F.post self.now.read) }
        requires size { length pieces.now < 2 ^ 32 }
        requires room { depth + self.now.steps ≤ 1000 }
        ensures { Gives found (Shorter pieces.entry.now) (r.until (stop until) ((r.readers self.now.steps).statement depth s.Role.Inner) (shown pieces.entry.now)) result }
    {
        let mut items = Items::new(self.alloc);
        for _turn in 0..pieces.len() {
            if stops(until, pieces) {
                return Ok(Some((items, pieces)));
            }
            let Some((item, rest)) = self.statement(pieces, Role::Inner, depth)? else {
                return Ok(None);
            };
            items.push(item.into_inner())?;
            pieces = onward(rest);
        }
        if stops(until, pieces) {
            Ok(Some((items, pieces)))
        } else {
            Ok(None)
        }
    }

    /// Members, each no deeper than `depth`.
    #[tactic(auto, using(java_type_parser::proofs::LawsToCite::length_shown))]
    pub fn members<'a, 'b>(
        &self,
        mut pieces: Pieces<'a>,
        until: Until,
        owner: Owner<'b>,
        depth: usize,
    ) -> Answer<'a, Items<JMember>>
        requires nests { Nests self.now.depth self.now.steps (F.pre self.now.read) (F.post self.now.read) }
        requires size { length pieces.now < 2 ^ 32 }
        requires room { depth + self.now.steps ≤ 1000 }
        ensures { Gives found (Shorter pieces.entry.now) (r.until (stop until) ((r.readers self.now.steps).member depth (owner_seen owner.entry)) (shown pieces.entry.now)) result }
    {
        let mut items = Items::new(self.alloc);
        for _turn in 0..pieces.len() {
            if stops(until, pieces) {
                return Ok(Some((items, pieces)));
            }
            let Some((item, rest)) = self.member(pieces, owner, depth)? else {
                return Ok(None);
            };
            items.push(item.into_inner())?;
            pieces = onward(rest);
        }
        if stops(until, pieces) {
            Ok(Some((items, pieces)))
        } else {
            Ok(None)
        }
    }

    /// Labels of a switch, as many as there are.
    #[tactic(auto, using(java_type_parser::proofs::LawsToCite::length_shown))]
    pub fn labels<'a>(&self, mut pieces: Pieces<'a>) -> Answer<'a, Items<JCase>>
        requires nests { Nests self.now.depth self.now.steps (F.pre self.now.read) (F.post self.now.read) }
        requires size { length pieces.now < 2 ^ 32 }
        ensures { Gives found (Shorter pieces.entry.now) (r.until r.no_case ((r.readers self.now.steps).label self.now.depth) (shown pieces.entry.now)) result }
    {
        let mut items = Items::new(self.alloc);
        for _turn in 0..pieces.len() {
            if stops(Until::NoCase, pieces) {
                return Ok(Some((items, pieces)));
            }
            let Some((item, rest)) = self.label(pieces, self.depth)? else {
                return Ok(None);
            };
            items.push(item.into_inner())?;
            pieces = onward(rest);
        }
        if stops(Until::NoCase, pieces) {
            Ok(Some((items, pieces)))
        } else {
            Ok(None)
        }
    }
}
