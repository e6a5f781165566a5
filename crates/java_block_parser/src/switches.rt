//! Statements that are a `switch` (JLS 14.11).

ghost use Rattle.std.specs.Prelude.{◌≡◌, ◌≤◌, ◌<◌, ◌+◌, ◌^◌, length};
ghost use Rattle.java_unit_grammar.specs.Reading as r;
ghost use Rattle.java_token_cursor.specs.Shown.{shown};
ghost use Rattle.java_type_parser.specs.Gives.{Gives};
ghost use Rattle.java_block_parser.specs.Asks.{Nests, Shorter, braced_found, found, rounded};
ghost use Rattle.java_block_parser.specs.Statements.{switch_behind};

use crate::asks::{Answer, Ask, Braced, Part, Rounded, Until};
use crate::blocks::closed;
use crate::grammar::Grammar;
use crate::tokens::{open_curly, stops};
use java_body_cuts::begins_case;
use java_token_cursor::Pieces;
use java_tree::{JExpr, Position};
use java_type_parser::{let_go, onward};
use java_unit_grammar::{JCaseGroup, JStatement};
use sqlite_items::{Boxed, Items};
use std::alloc::Global;

impl<F: for<'a, 'b> Fn(Global, Pieces<'a>, Ask<'b>, usize, usize) -> Answer<'a, Part>> Grammar<F> {
    /// Labels and the statements behind them.
    #[tactic(auto, unfolding(java_unit_grammar::specs::Reading::group_read))]
    fn group<'a>(&self, pieces: Pieces<'a>) -> Answer<'a, Boxed<JCaseGroup>>
        requires nests { Nests self.now.depth self.now.steps (F.pre self.now.read) (F.post self.now.read) }
        requires size { length pieces.now < 2 ^ 32 }
        ensures { Gives found (Shorter pieces.now) (r.group_read (r.readers self.now.steps) self.now.depth (shown pieces.now)) result }
    {
        if !begins_case(pieces) {
            return Ok(None);
        }
        let Some((labels, rest)) = self.labels(pieces)? else {
            return Ok(None);
        };
        match self.statements(rest, Until::Group, self.depth) {
            Ok(Some((statements, rest))) => {
                let group = Boxed::new(self.alloc, JCaseGroup { labels, statements })?;
                Ok(Some((group, rest)))
            }
            Ok(None) => {
                let_go(labels);
                Ok(None)
            }
            Err(error) => {
                let_go(labels);
                Err(error)
            }
        }
    }

    /// Groups as far as the `}`.
    #[tactic(auto, using(java_type_parser::proofs::LawsToCite::length_shown))]
    fn groups<'a>(&self, mut pieces: Pieces<'a>) -> Answer<'a, Items<JCaseGroup>>
        requires nests { Nests self.now.depth self.now.steps (F.pre self.now.read) (F.post self.now.read) }
        requires size { length pieces.now < 2 ^ 32 }
        ensures { Gives found (Shorter pieces.entry.now) (r.until r.begins_close (r.group_read (r.readers self.now.steps) self.now.depth) (shown pieces.entry.now)) result }
    {
        let mut items = Items::new(self.alloc);
        for _turn in 0..pieces.len() {
            if stops(Until::Close, pieces) {
                return Ok(Some((items, pieces)));
            }
            let Some((item, rest)) = self.group(pieces)? else {
                return Ok(None);
            };
            items.push(item.into_inner())?;
            pieces = onward(rest);
        }
        if stops(Until::Close, pieces) {
            Ok(Some((items, pieces)))
        } else {
            Ok(None)
        }
    }

    /// Groups in braces.
    #[tactic(auto, unfolding(java_unit_grammar::specs::Reading::braced))]
    fn group_braces<'a>(&self, pieces: Pieces<'a>) -> Answer<'a, Braced<JCaseGroup>>
        requires nests { Nests self.now.depth self.now.steps (F.pre self.now.read) (F.post self.now.read) }
        requires size { length pieces.now < 2 ^ 32 }
        ensures { Gives braced_found (Shorter pieces.now) (r.braced (r.until r.begins_close (r.group_read (r.readers self.now.steps) self.now.depth)) (shown pieces.now)) result }
    {
        let Some((opens, rest)) = open_curly(pieces) else {
            return Ok(None);
        };
        match self.groups(rest) {
            Ok(Some((items, rest))) => closed(opens, items, rest),
            Ok(None) => Ok(None),
            Err(error) => Err(error),
        }
    }

    /// Behind what a `switch` looks at.
    pub fn switch_behind<'a>(
        &self,
        at: Position,
        subject: Rounded<JExpr>,
        pieces: Pieces<'a>,
    ) -> Answer<'a, Boxed<JStatement>>
        requires nests { Nests self.now.depth self.now.steps (F.pre self.now.read) (F.post self.now.read) }
        requires size { length pieces.now < 2 ^ 32 }
        ensures { Gives found (Shorter pieces.now) (switch_behind (r.readers self.now.steps) self.now.depth at (rounded subject) (shown pieces.now)) result }
    {
        match self.group_braces(pieces) {
            Ok(Some((groups, rest))) => {
                let (left, groups, right) = groups;
                let (opens, head, bodies, closes) = subject;
                let head = head.into_inner();
                let tree = JStatement::Switch(at, opens, head, bodies, closes, left, groups, right);
                Ok(Some((Boxed::new(self.alloc, tree)?, rest)))
            }
            Ok(None) => {
                let_go(subject);
                Ok(None)
            }
            Err(error) => {
                let_go(subject);
                Err(error)
            }
        }
    }
}
