//! The reader of parts. The rules take it as a parameter, so that each is proved by itself.

ghost use Rattle.std.specs.Prelude.{◌≡◌, ◌≤◌, ◌<◌, ◌+◌, ◌^◌, length};
ghost use Rattle.java_unit_grammar.specs.Reading as r;
ghost use Rattle.java_token_cursor.specs.Shown.{shown};
ghost use Rattle.java_type_parser.specs.Gives.{Gives, Always};
ghost use Rattle.java_modifier_rules.specs.Fits.{owner_seen, role_seen};
ghost use Rattle.java_block_parser.specs.Asks.{Nests, Shorter, found, same};

use crate::asks::{Answer, Ask, Part};
use j2k_base::NoMemory;
use java_modifier_rules::{Owner, Role};
use java_token_cursor::Pieces;
use java_type_parser::let_go;
use java_unit_grammar::{JBody, JCase, JMember, JStatement};
use sqlite_items::Boxed;
use std::alloc::Global;

#[derive(Clone, Copy)]
pub struct Grammar<F> {
    pub alloc: Global,
    /// How deep what is read may be, less one.
    pub depth: usize,
    /// How many steps it is to the leaves at most.
    pub steps: usize,
    /// Reads parts: the pieces, what is asked for, how deep it may be, and the steps.
    pub read: F,
}

impl<F: for<'a, 'b> Fn(Global, Pieces<'a>, Ask<'b>, usize, usize) -> Answer<'a, Part>> Grammar<F> {
    /// The body that all of the pieces are.
    pub fn body<'a>(
        &self,
        pieces: Pieces<'a>,
        is_block: bool,
        depth: usize,
    ) -> Result<Option<Boxed<JBody>>, NoMemory>
        requires nests { Nests self.now.depth self.now.steps (F.pre self.now.read) (F.post self.now.read) }
        requires size { length pieces.now < 2 ^ 32 }
        requires room { depth + self.now.steps ≤ 1000 }
        ensures { Gives same Always ((r.readers self.now.steps).body depth is_block (shown pieces.now)) result }
    {
        let ask = Ask::Body(is_block);
        match (self.read)(self.alloc, pieces, ask, depth, self.steps) {
            Ok(Some((part, _))) => match part {
                Part::Body(body) => Ok(Some(body)),
                other => {
                    let_go(other);
                    Ok(None)
                }
            },
            Ok(None) => Ok(None),
            Err(error) => Err(error),
        }
    }

    /// A label of a switch.
    pub fn label<'a>(&self, pieces: Pieces<'a>, depth: usize) -> Answer<'a, Boxed<JCase>>
        requires nests { Nests self.now.depth self.now.steps (F.pre self.now.read) (F.post self.now.read) }
        requires size { length pieces.now < 2 ^ 32 }
        requires room { depth + self.now.steps ≤ 1000 }
        ensures { Gives found (Shorter pieces.now) ((r.readers self.now.steps).label depth (shown pieces.now)) result }
    {
        match (self.read)(self.alloc, pieces, Ask::Label, depth, self.steps) {
            Ok(Some((part, rest))) => match part {
                Part::Label(label) => Ok(Some((label, rest))),
                other => {
                    let_go(other);
                    Ok(None)
                }
            },
            Ok(None) => Ok(None),
            Err(error) => Err(error),
        }
    }

    pub fn statement<'a>(
        &self,
        pieces: Pieces<'a>,
        role: Role,
        depth: usize,
    ) -> Answer<'a, Boxed<JStatement>>
        requires nests { Nests self.now.depth self.now.steps (F.pre self.now.read) (F.post self.now.read) }
        requires size { length pieces.now < 2 ^ 32 }
        requires room { depth + self.now.steps ≤ 1000 }
        ensures { Gives found (Shorter pieces.now) ((r.readers self.now.steps).statement depth (role_seen role) (shown pieces.now)) result }
    {
        let ask = Ask::Statement(role);
        match (self.read)(self.alloc, pieces, ask, depth, self.steps) {
            Ok(Some((part, rest))) => match part {
                Part::Statement(statement) => Ok(Some((statement, rest))),
                other => {
                    let_go(other);
                    Ok(None)
                }
            },
            Ok(None) => Ok(None),
            Err(error) => Err(error),
        }
    }

    pub fn member<'a, 'b>(
        &self,
        pieces: Pieces<'a>,
        owner: Owner<'b>,
        depth: usize,
    ) -> Answer<'a, Boxed<JMember>>
        requires nests { Nests self.now.depth self.now.steps (F.pre self.now.read) (F.post self.now.read) }
        requires size { length pieces.now < 2 ^ 32 }
        requires room { depth + self.now.steps ≤ 1000 }
        ensures { Gives found (Shorter pieces.now) ((r.readers self.now.steps).member depth (owner_seen owner.entry) (shown pieces.now)) result }
    {
        let ask = Ask::Member(owner);
        match (self.read)(self.alloc, pieces, ask, depth, self.steps) {
            Ok(Some((part, rest))) => match part {
                Part::Member(member) => Ok(Some((member, rest))),
                other => {
                    let_go(other);
                    Ok(None)
                }
            },
            Ok(None) => Ok(None),
            Err(error) => Err(error),
        }
    }
}
