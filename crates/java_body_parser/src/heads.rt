//! Heads of any kind with their bodies.

ghost use Rattle.std.specs.Prelude.{◌≡◌, ◌≤◌, ◌<◌, ◌+◌, ◌-◌, ◌^◌, suc, length};
ghost use Rattle.java_unit_grammar.specs.Cutting as c;
ghost use Rattle.java_unit_grammar.specs.Reading as r;
ghost use Rattle.java_token_cursor.specs.Shown.{shown};
ghost use Rattle.java_type_parser.specs.Gives.{Gives, Always};
ghost use Rattle.java_body_cuts.specs.Cuts.{all_shown, cut_seen, stop_seen};
ghost use Rattle.java_block_parser.specs.Asks.{Nests, Shorter, found, headed_found, rounded_found, same};
ghost use Rattle.java_body_parser.specs.Heads.{AllSmall, CutFits, TextParts, cut_bodied, cut_bodies, cut_head, next_level, parted_levels, rounded_end};

use crate::kinds::Kind;
use crate::rules::Rules;
use j2k_base::NoMemory;
use java_block_parser::{Answer, Ask, Headed, Part, Rounded, close, open_round};
use java_body_cuts::{CutFound, Stop, cut, spans};
use java_token_cursor::{Piece, Pieces};
use java_tree::Position;
use java_type_parser::let_go;
use java_unit_grammar::JBody;
use sqlite_items::{Boxed, Items};
use std::alloc::Global;

/// How deep a body of the level may be, where what holds the head may be `depth + 1` deep.
fn room(depth: usize, level: usize) -> usize
    requires { depth ≤ 998 }
    ensures same { result ≡ suc (suc depth) - level }
    ensures within { result ≤ depth + 2 }
{
    (depth + 2).saturating_sub(level)
}

/// The first of the levels and the first of the kinds, and those behind them.
fn parted<'a>(
    levels: &'a [usize],
    kinds: &'a [bool],
) -> Option<((usize, bool), (&'a [usize], &'a [bool]))>
    ensures { parted_levels result ≡ next_level levels.now kinds.now }
{
    let (level, levels) = levels.split_first()?;
    let (kind, kinds) = kinds.split_first()?;
    Some(((*level, *kind), (levels, kinds)))
}

/// The first of the texts, and those behind it.
pub fn text_first<'a, 'b>(texts: &'b [Pieces<'a>]) -> Option<(Pieces<'a>, &'b [Pieces<'a>])>
    ensures { TextParts texts.now result }
{
    let (text, behind) = texts.split_first()?;
    Some((*text, behind))
}

/// The items, with which a loop goes on.
fn onward_of<'b, T>(items: &'b [T]) -> &'b [T]
    ensures { result.now ≡ items.now }
{
    items
}

/// Cuts a head off, with bodies that are no longer than the pieces.
pub fn cut_off<'a>(
    alloc: Global,
    stop: Stop,
    pieces: Pieces<'a>,
) -> Result<Option<CutFound<'a>>, NoMemory>
    requires { length pieces.now < 2 ^ 32 }
    ensures { Gives cut_seen (CutFits pieces.now) (c.cut (stop_seen stop) (shown pieces.now)) result }
{
    cut(alloc, stop, pieces)
}

/// A head in parentheses, where a `)` comes first of the pieces.
fn closed<'a, H: Drop>(
    opens: Position,
    headed: Headed<H>,
    pieces: Pieces<'a>,
) -> Answer<'a, Rounded<H>>
    ensures { Gives rounded_found (Shorter pieces.now) (rounded_end opens headed.0 headed.1 (shown pieces.now)) result }
{
    match close(pieces) {
        Some((closes, rest)) => {
            let (head, bodies) = headed;
            Ok(Some(((opens, head, bodies, closes), rest)))
        }
        None => {
            let_go(headed);
            Ok(None)
        }
    }
}

impl<F: for<'a, 'b> Fn(Global, Pieces<'a>, Ask<'b>, usize, usize) -> Answer<'a, Part>> Rules<F> {
    /// The bodies with those texts, each at its level and of its kind.
    pub fn bodies<'a, 'b>(
        &self,
        mut levels: &'b [usize],
        mut kinds: &'b [bool],
        mut texts: &'b [Pieces<'a>],
        depth: usize,
    ) -> Result<Option<Items<JBody>>, NoMemory>
        requires nests { Nests self.now.parts.depth self.now.parts.steps (F.pre self.now.parts.read) (F.post self.now.parts.read) }
        requires small { AllSmall texts.now }
        requires room { depth + self.now.parts.steps ≤ 998 }
        ensures { Gives same Always (r.bodies_by (r.readers self.now.parts.steps).body depth levels.entry.now kinds.entry.now (all_shown texts.entry.now)) result }
    {
        let mut found = Items::new(self.parts.alloc);
        while let Some((text, behind)) = text_first(texts) {
            let Some(((level, is_block), (more_levels, more_kinds))) = parted(levels, kinds) else {
                return Ok(None);
            };
            let Some(body) = self.parts.body(text, is_block, room(depth, level))? else {
                return Ok(None);
            };
            found.push(body.into_inner())?;
            levels = onward_of(more_levels);
            kinds = onward_of(more_kinds);
            texts = onward_of(behind);
        }
        Ok(Some(found))
    }

    /// The bodies of a head that was cut off, at those levels.
    pub fn bodies_of<'a>(
        &self,
        cut: &CutFound<'a>,
        levels: &[usize],
        depth: usize,
    ) -> Result<Option<Items<JBody>>, NoMemory>
        requires nests { Nests self.now.parts.depth self.now.parts.steps (F.pre self.now.parts.read) (F.post self.now.parts.read) }
        requires small { AllSmall cut.now.bodies.items }
        requires room { depth + self.now.parts.steps ≤ 998 }
        ensures { Gives same Always (cut_bodies (r.readers self.now.parts.steps) depth levels.now (cut_seen cut.now)) result }
    {
        let kinds = spans(self.parts.alloc, cut.text.as_slice())?;
        self.bodies(levels, kinds.as_slice(), cut.bodies.as_slice(), depth)
    }

    fn head_bodies<'a, K: Kind>(
        &self,
        kind: K,
        cut: &CutFound<'a>,
        head: &K::Head,
        depth: usize,
    ) -> Result<Option<Items<JBody>>, NoMemory>
        requires nests { Nests self.now.parts.depth self.now.parts.steps (F.pre self.now.parts.read) (F.post self.now.parts.read) }
        requires small { AllSmall cut.now.bodies.items }
        requires room { depth + self.now.parts.steps ≤ 998 }
        ensures { Gives same Always (cut_bodies (r.readers self.now.parts.steps) depth (K.levels kind head.now) (cut_seen cut.now)) result }
    {
        let Some(_) = text_first(cut.bodies.as_slice()) else {
            return Ok(Some(Items::new(self.parts.alloc)));
        };
        let levels = kind.depths(self.parts.alloc, head)?;
        self.bodies_of(cut, levels.as_slice(), depth)
    }

    fn head_bodied<'a, K: Kind>(
        &self,
        kind: K,
        cut: &CutFound<'a>,
        head: Boxed<K::Head>,
        depth: usize,
    ) -> Answer<'a, Headed<K::Head>>
        requires nests { Nests self.now.parts.depth self.now.parts.steps (F.pre self.now.parts.read) (F.post self.now.parts.read) }
        requires small { AllSmall cut.now.bodies.items }
        requires room { depth + self.now.parts.steps ≤ 998 }
        ensures { Gives headed_found (Shorter cut.now.rest.now) (cut_bodied (r.readers self.now.parts.steps) depth (K.levels kind) head (cut_seen cut.now)) result }
    {
        match self.head_bodies(kind, cut, head.get(), depth) {
            Ok(Some(bodies)) => Ok(Some(((head, bodies), cut.rest))),
            Ok(None) => {
                let_go(head);
                Ok(None)
            }
            Err(error) => {
                let_go(head);
                Err(error)
            }
        }
    }

    fn head_of<'a, K: Kind>(
        &self,
        kind: K,
        cut: &CutFound<'a>,
        depth: usize,
    ) -> Answer<'a, Headed<K::Head>>
        requires nests { Nests self.now.parts.depth self.now.parts.steps (F.pre self.now.parts.read) (F.post self.now.parts.read) }
        requires small { AllSmall cut.now.bodies.items }
        requires room { depth + self.now.parts.steps ≤ 998 }
        ensures { Gives headed_found (Shorter cut.now.rest.now) (cut_head (r.readers self.now.parts.steps) depth (K.reading kind) (K.levels kind) (cut_seen cut.now)) result }
    {
        match kind.read(self.parts.alloc, cut.text.as_slice()) {
            Ok(Some(head)) => self.head_bodied(kind, cut, head, depth),
            Ok(None) => Ok(None),
            Err(error) => Err(error),
        }
    }

    /// A head of the kind with its bodies, in what may be `depth + 1` deep.
    #[tactic(auto, unfolding(java_unit_grammar::specs::Reading::head_read))]
    pub fn head<'a, K: Kind>(
        &self,
        kind: K,
        stop: Stop,
        pieces: Pieces<'a>,
        depth: usize,
    ) -> Answer<'a, Headed<K::Head>>
        requires nests { Nests self.now.parts.depth self.now.parts.steps (F.pre self.now.parts.read) (F.post self.now.parts.read) }
        requires size { length pieces.now < 2 ^ 32 }
        requires room { depth + self.now.parts.steps ≤ 998 }
        ensures { Gives headed_found (Shorter pieces.now) (r.head_read (r.readers self.now.parts.steps).body depth (stop_seen stop) (K.reading kind) (K.levels kind) (shown pieces.now)) result }
    {
        match cut_off(self.parts.alloc, stop, pieces) {
            Ok(Some(cut)) => self.head_of(kind, &cut, depth),
            Ok(None) => Ok(None),
            Err(error) => Err(error),
        }
    }

    /// A head of the kind in parentheses.
    #[tactic(auto, unfolding(java_unit_grammar::specs::Reading::rounded))]
    pub fn rounded<'a, K: Kind>(&self, kind: K, pieces: Pieces<'a>) -> Answer<'a, Rounded<K::Head>>
        requires nests { Nests self.now.parts.depth self.now.parts.steps (F.pre self.now.parts.read) (F.post self.now.parts.read) }
        requires size { length pieces.now < 2 ^ 32 }
        ensures { Gives rounded_found (Shorter pieces.now) (r.rounded (r.readers self.now.parts.steps).body self.now.parts.depth (K.reading kind) (K.levels kind) (shown pieces.now)) result }
    {
        let Some((opens, rest)) = open_round(pieces) else {
            return Ok(None);
        };
        match self.head(kind, Stop::Close, rest, self.parts.depth) {
            Ok(Some((headed, rest))) => closed(opens, headed, rest),
            Ok(None) => Ok(None),
            Err(error) => Err(error),
        }
    }
}
