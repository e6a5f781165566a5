//! Bodies, and the reader of all parts.

ghost use Rattle.std.specs.Prelude.{◌≡◌, ◌≤◌, ◌<◌, ◌+◌, ◌^◌, length, [], true, false};
ghost use Rattle.java_unit_grammar.specs.Reading as r;
ghost use Rattle.java_token_cursor.specs.Shown.{shown};
ghost use Rattle.java_type_parser.specs.Gives.{Gives, Always};
ghost use Rattle.java_block_parser.specs.declared.asks.Ask.TheVariants as ask;
ghost use Rattle.java_block_parser.specs.Asks.{Nests, Shorter, asked, part_found, same, stepped};

use crate::rules::Rules;
use j2k_base::NoMemory;
use java_block_parser::{Answer, Ask, Grammar, Part, Until};
use java_body_cuts::is_end;
use java_modifier_rules::{Owner, Role};
use java_token_cursor::Pieces;
use java_type_parser::let_go;
use java_unit_grammar::JBody;
use sqlite_items::Boxed;
use std::alloc::Global;

/// None of the pieces.
#[tactic(auto, unfolding(java_token_cursor::specs::Shown::shown))]
fn none_of<'a>(pieces: Pieces<'a>) -> Pieces<'a>
    ensures same { shown result.now ≡ [] }
    ensures shorter { length result.now ≤ length pieces.now }
{
    &pieces[pieces.len()..]
}

impl<F: for<'a, 'b> Fn(Global, Pieces<'a>, Ask<'b>, usize, usize) -> Answer<'a, Part>> Rules<F> {
    /// The statements that all of the pieces are.
    #[tactic(auto, using(java_declaration_parser::proofs::LawsToCite::wholes), unfolding(java_unit_grammar::specs::Reading::body_step))]
    fn block_body<'a>(&self, pieces: Pieces<'a>) -> Result<Option<Boxed<JBody>>, NoMemory>
        requires nests { Nests self.now.parts.depth self.now.parts.steps (F.pre self.now.parts.read) (F.post self.now.parts.read) }
        requires size { length pieces.now < 2 ^ 32 }
        ensures { Gives same Always (r.body_step (r.readers self.now.parts.steps) self.now.parts.depth true (shown pieces.now)) result }
    {
        let Some((items, rest)) = self.parts.statements(pieces, Until::End, self.parts.depth)?
        else {
            return Ok(None);
        };
        if !is_end(rest) {
            let_go(items);
            return Ok(None);
        }
        Ok(Some(Boxed::new(self.parts.alloc, JBody::Statements(items))?))
    }

    /// The members that all of the pieces are.
    #[tactic(auto, using(java_declaration_parser::proofs::LawsToCite::wholes), unfolding(java_unit_grammar::specs::Reading::body_step))]
    fn class_body<'a>(&self, pieces: Pieces<'a>) -> Result<Option<Boxed<JBody>>, NoMemory>
        requires nests { Nests self.now.parts.depth self.now.parts.steps (F.pre self.now.parts.read) (F.post self.now.parts.read) }
        requires size { length pieces.now < 2 ^ 32 }
        ensures { Gives same Always (r.body_step (r.readers self.now.parts.steps) self.now.parts.depth false (shown pieces.now)) result }
    {
        let Some((items, rest)) = self.parts.members(
            pieces,
            Until::End,
            Owner::Class(None),
            self.parts.depth + 1,
        )?
        else {
            return Ok(None);
        };
        if !is_end(rest) {
            let_go(items);
            return Ok(None);
        }
        Ok(Some(Boxed::new(self.parts.alloc, JBody::Members(items))?))
    }

    fn body_step<'a>(
        &self,
        pieces: Pieces<'a>,
        is_block: bool,
    ) -> Result<Option<Boxed<JBody>>, NoMemory>
        requires nests { Nests self.now.parts.depth self.now.parts.steps (F.pre self.now.parts.read) (F.post self.now.parts.read) }
        requires size { length pieces.now < 2 ^ 32 }
        ensures { Gives same Always (r.body_step (r.readers self.now.parts.steps) self.now.parts.depth is_block (shown pieces.now)) result }
    {
        if is_block {
            self.block_body(pieces)
        } else {
            self.class_body(pieces)
        }
    }

    fn body_part<'a>(&self, pieces: Pieces<'a>, is_block: bool) -> Answer<'a, Part>
        requires nests { Nests self.now.parts.depth self.now.parts.steps (F.pre self.now.parts.read) (F.post self.now.parts.read) }
        requires size { length pieces.now < 2 ^ 32 }
        ensures { Gives part_found (Shorter pieces.now) (stepped (r.readers self.now.parts.steps) self.now.parts.depth (ask.Body is_block) (shown pieces.now)) result }
    {
        let Some(body) = self.body_step(pieces, is_block)? else {
            return Ok(None);
        };
        Ok(Some((Part::Body(body), none_of(pieces))))
    }

    fn label_part<'a>(&self, pieces: Pieces<'a>) -> Answer<'a, Part>
        requires nests { Nests self.now.parts.depth self.now.parts.steps (F.pre self.now.parts.read) (F.post self.now.parts.read) }
        requires size { length pieces.now < 2 ^ 32 }
        ensures { Gives part_found (Shorter pieces.now) (stepped (r.readers self.now.parts.steps) self.now.parts.depth ask.Label (shown pieces.now)) result }
    {
        let Some((label, rest)) = self.label_step(pieces)? else {
            return Ok(None);
        };
        Ok(Some((Part::Label(label), rest)))
    }

    fn statement_part<'a>(&self, pieces: Pieces<'a>, role: Role) -> Answer<'a, Part>
        requires nests { Nests self.now.parts.depth self.now.parts.steps (F.pre self.now.parts.read) (F.post self.now.parts.read) }
        requires size { length pieces.now < 2 ^ 32 }
        ensures { Gives part_found (Shorter pieces.now) (stepped (r.readers self.now.parts.steps) self.now.parts.depth (ask.Statement role) (shown pieces.now)) result }
    {
        let Some((statement, rest)) = self.statement_step(role, pieces)? else {
            return Ok(None);
        };
        Ok(Some((Part::Statement(statement), rest)))
    }

    fn member_part<'a, 'b>(&self, pieces: Pieces<'a>, owner: Owner<'b>) -> Answer<'a, Part>
        requires nests { Nests self.now.parts.depth self.now.parts.steps (F.pre self.now.parts.read) (F.post self.now.parts.read) }
        requires size { length pieces.now < 2 ^ 32 }
        ensures { Gives part_found (Shorter pieces.now) (stepped (r.readers self.now.parts.steps) self.now.parts.depth (ask.Member owner.entry) (shown pieces.now)) result }
    {
        let Some((member, rest)) = self.member_step(pieces, owner)? else {
            return Ok(None);
        };
        Ok(Some((Part::Member(member), rest)))
    }

    /// What is asked for.
    pub fn step<'a, 'b>(&self, pieces: Pieces<'a>, ask: Ask<'b>) -> Answer<'a, Part>
        requires nests { Nests self.now.parts.depth self.now.parts.steps (F.pre self.now.parts.read) (F.post self.now.parts.read) }
        requires size { length pieces.now < 2 ^ 32 }
        ensures { Gives part_found (Shorter pieces.now) (stepped (r.readers self.now.parts.steps) self.now.parts.depth ask.entry (shown pieces.now)) result }
    {
        match ask {
            Ask::Body(is_block) => self.body_part(pieces, is_block),
            Ask::Label => self.label_part(pieces),
            Ask::Statement(role) => self.statement_part(pieces, role),
            Ask::Member(owner) => self.member_part(pieces, owner),
        }
    }
}

/// What is asked for, no deeper than `depth` and in at most as many steps as `steps`, and the pieces after it.
#[tactic(auto, using(crate::proofs::Parts::stops))]
pub fn part<'a, 'b>(
    alloc: Global,
    pieces: Pieces<'a>,
    ask: Ask<'b>,
    depth: usize,
    steps: usize,
) -> Answer<'a, Part>
    requires size { length pieces.now < 2 ^ 32 }
    requires room { depth + steps ≤ 1000 }
    requires few { steps ≤ 701 }
    ensures { Gives part_found (Shorter pieces.now) (asked (r.readers steps) ask.entry depth (shown pieces.now)) result }
{
    if steps == 0 || depth == 0 {
        return Ok(None);
    }
    Rules {
        parts: Grammar {
            alloc,
            depth: depth - 1,
            steps: steps - 1,
            read: part,
        },
    }
    .step(pieces, ask)
}
