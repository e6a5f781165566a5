//! The constants of an enum, and what types consist of.

ghost use Rattle.std.specs.Prelude.{◌≡◌, ◌≤◌, ◌<◌, ◌+◌, ◌^◌, length, IfOk};
ghost use Rattle.java_unit_grammar.specs.Standing as s;
ghost use Rattle.java_unit_grammar.specs.Reading as r;
ghost use Rattle.java_token_cursor.specs.Shown.{shown};
ghost use Rattle.java_type_parser.specs.Gives.{Always, Gives};
ghost use Rattle.java_block_parser.specs.Asks.{Nests, Shorter, constants_found, same};
ghost use Rattle.java_body_parser.specs.Members.{IsEnd, constants_bodied, constants_in, constants_of};
ghost use Rattle.java_body_parser.specs.Heads.{AllSmall};
ghost use Rattle.java_body_cuts.specs.Cuts.{all_shown, cut_seen};
ghost use Rattle.java_unit_grammar.specs.Levels.{constants_levels};

use crate::heads::{cut_off, text_first};
use crate::labels::with_first;
use crate::rules::Rules;
use j2k_base::NoMemory;
use java_block_parser::{Answer, Ask, ConstantsFound, Part, TypeReader, Until, semicolon};
use java_body_cuts::{CutFound, Stop, spans};
use java_member_grammar::{JConstants, JTypeHead};
use java_member_parser::{constants, type_head};
use java_modifier_rules::Owner;
use java_token_cursor::{Piece, Pieces};
use java_tree::MAX_DEPTH;
use java_type_parser::let_go;
use java_unit_grammar::{JBody, JMember};
use sqlite_items::{Boxed, Items};
use std::alloc::Global;

/// The text with the `;` that comes first, where one does, and what follows.
#[tactic(auto, using(crate::proofs::Texts::ends))]
fn with_end<'a>(
    text: Vec<Piece<'a>>,
    pieces: Pieces<'a>,
) -> Result<(Vec<Piece<'a>>, Pieces<'a>), NoMemory>
    ensures { IfOk result (λ x. IsEnd text.entry.items pieces.now x.0.items x.1.now) }
{
    if let Some((_, behind)) = semicolon(pieces) {
        let text = with_first(text, pieces)?;
        return Ok((text, behind));
    }
    Ok((text, pieces))
}

impl<F: for<'a, 'b> Fn(Global, Pieces<'a>, Ask<'b>, usize, usize) -> Answer<'a, Part>> Rules<F> {
    /// The constants of an enum as far as what follows them (JLS 8.9.1).
    #[tactic(auto, unfolding(java_unit_grammar::specs::Reading::constants_list))]
    pub fn constants_list<'a>(&self, pieces: Pieces<'a>) -> Answer<'a, ConstantsFound>
        requires nests { Nests self.now.parts.depth self.now.parts.steps (F.pre self.now.parts.read) (F.post self.now.parts.read) }
        requires size { length pieces.now < 2 ^ 32 }
        ensures { Gives constants_found (Shorter pieces.now) (r.constants_list (r.readers self.now.parts.steps) (shown pieces.now)) result }
    {
        match cut_off(self.parts.alloc, Stop::Constants, pieces) {
            Ok(Some(cut)) => self.constants_of(cut),
            Ok(None) => Ok(None),
            Err(error) => Err(error),
        }
    }

    fn constants_of<'a>(&self, cut: CutFound<'a>) -> Answer<'a, ConstantsFound>
        requires nests { Nests self.now.parts.depth self.now.parts.steps (F.pre self.now.parts.read) (F.post self.now.parts.read) }
        requires small { AllSmall cut.bodies.items }
        ensures { Gives constants_found (Shorter cut.entry.rest.now) (constants_of (r.readers self.now.parts.steps) (cut_seen cut.entry)) result }
    {
        match spans(self.parts.alloc, cut.text.as_slice()) {
            Ok(kinds) => self.constants_by(cut, kinds.as_slice()),
            Err(error) => {
                let_go(cut);
                Err(error)
            }
        }
    }

    fn constants_by<'a>(&self, cut: CutFound<'a>, kinds: &[bool]) -> Answer<'a, ConstantsFound>
        requires nests { Nests self.now.parts.depth self.now.parts.steps (F.pre self.now.parts.read) (F.post self.now.parts.read) }
        requires small { AllSmall cut.bodies.items }
        requires same { kinds.now ≡ s.spans (shown cut.text.items) }
        ensures { Gives constants_found (Shorter cut.entry.rest.now) (constants_of (r.readers self.now.parts.steps) (cut_seen cut.entry)) result }
    {
        let CutFound { text, bodies, rest } = cut;
        match with_end(text, rest) {
            Ok((text, behind)) => {
                self.constants_in(text.as_slice(), kinds, bodies.as_slice(), behind)
            }
            Err(error) => {
                let_go(bodies);
                Err(error)
            }
        }
    }

    /// The constants with that text, and what follows.
    fn constants_in<'a, 'b>(
        &self,
        text: Pieces<'b>,
        kinds: &[bool],
        texts: &[Pieces<'a>],
        behind: Pieces<'a>,
    ) -> Answer<'a, ConstantsFound>
        requires nests { Nests self.now.parts.depth self.now.parts.steps (F.pre self.now.parts.read) (F.post self.now.parts.read) }
        requires small { AllSmall texts.now }
        ensures { Gives constants_found (Shorter behind.now) (constants_in (r.readers self.now.parts.steps) kinds.now (all_shown texts.now) (shown text.now) (shown behind.now)) result }
    {
        match constants(self.parts.alloc, text, MAX_DEPTH) {
            Ok(Some(head)) => {
                self.constants_bodied(Boxed::new(self.parts.alloc, head)?, kinds, texts, behind)
            }
            Ok(None) => Ok(None),
            Err(error) => Err(error),
        }
    }

    fn constants_bodied<'a>(
        &self,
        head: Boxed<JConstants>,
        kinds: &[bool],
        texts: &[Pieces<'a>],
        behind: Pieces<'a>,
    ) -> Answer<'a, ConstantsFound>
        requires nests { Nests self.now.parts.depth self.now.parts.steps (F.pre self.now.parts.read) (F.post self.now.parts.read) }
        requires small { AllSmall texts.now }
        ensures { Gives constants_found (Shorter behind.now) (constants_bodied (r.readers self.now.parts.steps) head kinds.now (all_shown texts.now) (shown behind.now)) result }
    {
        match self.constants_bodies(head.get(), kinds, texts) {
            Ok(Some(bodies)) => Ok(Some((ConstantsFound { head, bodies }, behind))),
            Ok(None) => {
                let_go(head);
                Ok(None)
            }
            Err(error) => {
                let_go(head);
                Err(error)
            }
        }
    }

    fn constants_bodies<'a>(
        &self,
        head: &JConstants,
        kinds: &[bool],
        texts: &[Pieces<'a>],
    ) -> Result<Option<Items<JBody>>, NoMemory>
        requires nests { Nests self.now.parts.depth self.now.parts.steps (F.pre self.now.parts.read) (F.post self.now.parts.read) }
        requires small { AllSmall texts.now }
        ensures { Gives same Always (r.bodies_by (r.readers self.now.parts.steps).body 199 (constants_levels head.now) kinds.now (all_shown texts.now)) result }
    {
        let Some(_) = text_first(texts) else {
            return Ok(Some(Items::new(self.parts.alloc)));
        };
        let levels = java_body_depths::constants(self.parts.alloc, head)?;
        self.bodies(levels.as_slice(), kinds, texts, 199)
    }
}

impl<F: for<'a, 'b> Fn(Global, Pieces<'a>, Ask<'b>, usize, usize) -> Answer<'a, Part>> TypeReader
    for Rules<F> {
    ghost ready = { λ x. Nests x.parts.depth x.parts.steps (F.pre x.parts.read) (F.post x.parts.read) };

    ghost depth = { λ x. x.parts.depth };

    ghost nested = { λ x. (r.readers x.parts.steps).member x.parts.depth };

    ghost parts = { λ x. r.readers x.parts.steps };

    fn head<'a>(&self, pieces: Pieces<'a>) -> Result<Option<Boxed<JTypeHead>>, NoMemory> {
        match type_head(self.parts.alloc, pieces, self.parts.depth)? {
            Some(head) => Ok(Some(Boxed::new(self.parts.alloc, head)?)),
            None => Ok(None),
        }
    }

    fn constants<'a>(&self, pieces: Pieces<'a>) -> Answer<'a, ConstantsFound> {
        self.constants_list(pieces)
    }

    fn members<'a, 'b>(&self, pieces: Pieces<'a>, owner: Owner<'b>) -> Answer<'a, Items<JMember>> {
        self.parts
            .members(pieces, Until::Close, owner, self.parts.depth)
    }
}
