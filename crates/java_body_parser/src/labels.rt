//! Labels of a switch, and pieces that end a head.

ghost use Rattle.std.specs.Prelude.{◌≡◌, ◌≤◌, ◌<◌, ◌+◌, ◌^◌, ◌++◌, length, take, IfOk, Some};
ghost use Rattle.java_unit_grammar.specs.Reading as r;
ghost use Rattle.java_token_cursor.specs.Shown.{shown};
ghost use Rattle.java_type_parser.specs.Gives.{Always, Gives};
ghost use Rattle.java_body_cuts.specs.Cuts.{all_shown, cut_seen};
ghost use Rattle.java_unit_grammar.specs.Levels.{switch_levels};
ghost use Rattle.java_unit_grammar.specs.Standing as s;
ghost use Rattle.java_block_parser.specs.Asks.{Nests, Shorter, found, same};
ghost use Rattle.java_body_parser.specs.Firsts.{first_shown};
ghost use Rattle.java_body_parser.specs.Cases.{label_bodied, label_by, label_case_read, label_cut, label_read};
ghost use Rattle.java_body_parser.specs.Heads.{AllSmall};
ghost use Rattle.java_unit_grammar.specs.declared.statements.JCase.{roll-JCase};

use crate::heads::{cut_off, text_first};
use crate::rules::Rules;
use j2k_base::NoMemory;
use java_block_parser::{Answer, Ask, Part, colon};
use java_body_cuts::{CutFound, Stop, spans};
use java_statement_grammar::JSwitchLabel;
use java_statement_parser::switch_label;
use java_token_cursor::{Piece, Pieces};
use java_type_parser::let_go;
use java_unit_grammar::{JBody, JCase};
use sqlite_items::{Boxed, Items};
use std::alloc::Global;

/// The first of the pieces.
#[tactic(auto, unfolding(java_token_cursor::specs::Shown::shown))]
fn first_piece<'a>(pieces: Pieces<'a>) -> Option<Piece<'a>>
    ensures { first_shown result ≡ take 1 (shown pieces.now) }
{
    let (piece, _) = pieces.split_first()?;
    Some(*piece)
}

#[tactic(auto, using(crate::proofs::Texts::texts))]
fn pushed<'a>(text: Vec<Piece<'a>>, piece: Piece<'a>) -> Result<Vec<Piece<'a>>, NoMemory>
    ensures { IfOk result (λ x. shown x.items ≡ shown text.entry.items ++ first_shown (Some piece.entry)) }
{
    let mut text = text;
    match text.push(piece) {
        Ok(()) => Ok(text),
        Err(error) => {
            let_go(text);
            Err(error.into())
        }
    }
}

/// The text and the first of the pieces, where there is one.
#[tactic(auto, using(crate::proofs::Texts::texts))]
pub fn with_first<'a>(text: Vec<Piece<'a>>, pieces: Pieces<'a>) -> Result<Vec<Piece<'a>>, NoMemory>
    ensures { IfOk result (λ x. shown x.items ≡ shown text.entry.items ++ take 1 (shown pieces.now)) }
{
    match first_piece(pieces) {
        Some(piece) => pushed(text, piece),
        None => Ok(text),
    }
}

/// The label that the text is, and what follows.
fn labeled_by<'a, 'b>(
    alloc: Global,
    text: Pieces<'b>,
    depth: usize,
    behind: Pieces<'a>,
) -> Answer<'a, Boxed<JSwitchLabel>>
    requires { depth < 1000 }
    ensures { Gives found (Shorter behind.now) (label_by depth (shown text.now) (shown behind.now)) result }
{
    match switch_label(alloc, text, depth + 1) {
        Ok(Some(label)) => Ok(Some((Boxed::new(alloc, label)?, behind))),
        Ok(None) => Ok(None),
        Err(error) => Err(error),
    }
}

/// The label with that text, before the `:` that comes first of the pieces, and what follows.
#[tactic(auto, using(crate::proofs::Texts::labels))]
fn label_of<'a>(
    alloc: Global,
    text: Vec<Piece<'a>>,
    pieces: Pieces<'a>,
    depth: usize,
) -> Answer<'a, Boxed<JSwitchLabel>>
    requires { depth < 1000 }
    ensures { Gives found (Shorter pieces.now) (label_read depth (shown text.entry.items) (shown pieces.now)) result }
{
    let Some((_, behind)) = colon(pieces) else {
        let_go(text);
        return Ok(None);
    };
    let text = with_first(text, pieces)?;
    labeled_by(alloc, text.as_slice(), depth, behind)
}

fn case_of(
    alloc: Global,
    label: Boxed<JSwitchLabel>,
    bodies: Items<JBody>,
) -> Result<Boxed<JCase>, NoMemory>
    ensures { IfOk result (λ x. x ≡ roll-JCase (record { label = label; bodies = bodies })) }
{
    let label = label.into_inner();
    Ok(Boxed::new(alloc, JCase { label, bodies })?)
}

impl<F: for<'a, 'b> Fn(Global, Pieces<'a>, Ask<'b>, usize, usize) -> Answer<'a, Part>> Rules<F> {
    /// The bodies of a label's value.
    fn label_bodies<'a>(
        &self,
        label: &JSwitchLabel,
        kinds: &[bool],
        texts: &[Pieces<'a>],
    ) -> Result<Option<Items<JBody>>, NoMemory>
        requires nests { Nests self.now.parts.depth self.now.parts.steps (F.pre self.now.parts.read) (F.post self.now.parts.read) }
        requires small { AllSmall texts.now }
        ensures { Gives same Always (r.bodies_by (r.readers self.now.parts.steps).body self.now.parts.depth (switch_levels label.now) kinds.now (all_shown texts.now)) result }
    {
        let Some(_) = text_first(texts) else {
            return Ok(Some(Items::new(self.parts.alloc)));
        };
        let levels = java_body_depths::label(self.parts.alloc, label)?;
        self.bodies(levels.as_slice(), kinds, texts, self.parts.depth)
    }

    /// The label with the bodies of its value.
    fn label_bodied<'a>(
        &self,
        label: Boxed<JSwitchLabel>,
        kinds: &[bool],
        texts: &[Pieces<'a>],
        behind: Pieces<'a>,
    ) -> Answer<'a, Boxed<JCase>>
        requires nests { Nests self.now.parts.depth self.now.parts.steps (F.pre self.now.parts.read) (F.post self.now.parts.read) }
        requires small { AllSmall texts.now }
        ensures { Gives found (Shorter behind.now) (label_bodied (r.readers self.now.parts.steps) self.now.parts.depth kinds.now (all_shown texts.now) label (shown behind.now)) result }
    {
        match self.label_bodies(label.get(), kinds, texts) {
            Ok(Some(bodies)) => Ok(Some((case_of(self.parts.alloc, label, bodies)?, behind))),
            Ok(None) => {
                let_go(label);
                Ok(None)
            }
            Err(error) => {
                let_go(label);
                Err(error)
            }
        }
    }

    /// A label that was cut off, where bodies of these kinds are in it.
    fn label_by<'a>(&self, cut: CutFound<'a>, kinds: &[bool]) -> Answer<'a, Boxed<JCase>>
        requires nests { Nests self.now.parts.depth self.now.parts.steps (F.pre self.now.parts.read) (F.post self.now.parts.read) }
        requires small { AllSmall cut.bodies.items }
        requires same { kinds.now ≡ s.spans (shown cut.text.items) }
        ensures { Gives found (Shorter cut.entry.rest.now) (label_cut (r.readers self.now.parts.steps) self.now.parts.depth (cut_seen cut.entry)) result }
    {
        let CutFound { text, bodies, rest } = cut;
        match label_of(self.parts.alloc, text, rest, self.parts.depth) {
            Ok(Some((label, behind))) => self.label_bodied(label, kinds, bodies.as_slice(), behind),
            Ok(None) => {
                let_go(bodies);
                Ok(None)
            }
            Err(error) => {
                let_go(bodies);
                Err(error)
            }
        }
    }

    /// A label that was cut off.
    fn label_cut<'a>(&self, cut: CutFound<'a>) -> Answer<'a, Boxed<JCase>>
        requires nests { Nests self.now.parts.depth self.now.parts.steps (F.pre self.now.parts.read) (F.post self.now.parts.read) }
        requires small { AllSmall cut.bodies.items }
        ensures { Gives found (Shorter cut.entry.rest.now) (label_cut (r.readers self.now.parts.steps) self.now.parts.depth (cut_seen cut.entry)) result }
    {
        match spans(self.parts.alloc, cut.text.as_slice()) {
            Ok(kinds) => self.label_by(cut, kinds.as_slice()),
            Err(error) => {
                let_go(cut);
                Err(error)
            }
        }
    }

    fn label_case<'a>(&self, pieces: Pieces<'a>) -> Answer<'a, Boxed<JCase>>
        requires nests { Nests self.now.parts.depth self.now.parts.steps (F.pre self.now.parts.read) (F.post self.now.parts.read) }
        requires size { length pieces.now < 2 ^ 32 }
        ensures { Gives found (Shorter pieces.now) (label_case_read (r.readers self.now.parts.steps) self.now.parts.depth (shown pieces.now)) result }
    {
        match cut_off(self.parts.alloc, Stop::Colon, pieces) {
            Ok(Some(cut)) => self.label_cut(cut),
            Ok(None) => Ok(None),
            Err(error) => Err(error),
        }
    }

    /// A label with the bodies of its value.
    pub fn label_step<'a>(&self, pieces: Pieces<'a>) -> Answer<'a, Boxed<JCase>>
        requires nests { Nests self.now.parts.depth self.now.parts.steps (F.pre self.now.parts.read) (F.post self.now.parts.read) }
        requires size { length pieces.now < 2 ^ 32 }
        ensures { Gives found (Shorter pieces.now) (r.label_step (r.readers self.now.parts.steps) self.now.parts.depth (shown pieces.now)) result }
    {
        self.label_case(pieces)
    }
}
