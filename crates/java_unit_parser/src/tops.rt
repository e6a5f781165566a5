//! Members that stand in no expression, and types with the members in them.

ghost use Rattle.std.specs.Prelude.{◌≡◌, ◌≤◌, ◌<◌, ◌^◌, length};
ghost use Rattle.java_tree.specs.Trees.{max_depth};
ghost use Rattle.java_unit_grammar.specs.Standing as s;
ghost use Rattle.java_unit_grammar.specs.Reading as r;
ghost use Rattle.java_token_cursor.specs.Shown.{shown};
ghost use Rattle.java_type_parser.specs.Gives.{Gives};
ghost use Rattle.java_modifier_rules.specs.Fits.{owner_seen};
ghost use Rattle.java_block_parser.specs.Asks.{Shorter, found};
ghost use Rattle.java_unit_parser.specs.Files.{Nests};

use j2k_base::NoMemory;
use java_block_parser::{Answer, ConstantsFound, TypeReader, typed};
use java_body_cuts::{begins_close, goes_declared, goes_type};
use java_body_parser::{constants_list, top_bodied, top_declared};
use java_member_grammar::JTypeHead;
use java_member_parser::type_head;
use java_modifier_rules::{Owner, home_of};
use java_token_cursor::Pieces;
use java_tree::MAX_DEPTH;
use java_type_parser::onward;
use java_unit_grammar::JMember;
use sqlite_items::{Boxed, Items};
use std::alloc::Global;

/// The reader of the members of types. The rules take it as a parameter, so that each is proved by itself.
#[derive(Clone, Copy)]
pub struct Tops<F> {
    pub alloc: Global,
    /// How many members may stand in each other.
    pub types: usize,
    /// Reads a member: the pieces, whose it is, and how many may stand in each other.
    pub read: F,
}

impl<F: for<'a, 'b> Fn(Global, Pieces<'a>, Owner<'b>, usize) -> Answer<'a, Boxed<JMember>>> Tops<
    F,
> {
    fn member<'a, 'b>(&self, pieces: Pieces<'a>, owner: Owner<'b>) -> Answer<'a, Boxed<JMember>>
        requires nests { Nests self.now.types (F.pre self.now.read) (F.post self.now.read) }
        requires size { length pieces.now < 2 ^ 32 }
        ensures { Gives found (Shorter pieces.now) (r.tops self.now.types (owner_seen owner.entry) (shown pieces.now)) result }
    {
        (self.read)(self.alloc, pieces, owner, self.types)
    }

    /// The members as far as the `}`.
    #[tactic(auto, using(java_type_parser::proofs::LawsToCite::length_shown))]
    fn nested<'a, 'b>(&self, mut pieces: Pieces<'a>, owner: Owner<'b>) -> Answer<'a, Items<JMember>>
        requires nests { Nests self.now.types (F.pre self.now.read) (F.post self.now.read) }
        requires size { length pieces.now < 2 ^ 32 }
        ensures { Gives found (Shorter pieces.entry.now) (r.until r.begins_close (r.tops self.now.types (owner_seen owner.entry)) (shown pieces.entry.now)) result }
    {
        let mut items = Items::new(self.alloc);
        for _turn in 0..pieces.len() {
            if begins_close(pieces) {
                return Ok(Some((items, pieces)));
            }
            let Some((item, rest)) = self.member(pieces, owner)? else {
                return Ok(None);
            };
            items.push(item.into_inner())?;
            pieces = onward(rest);
        }
        if begins_close(pieces) {
            Ok(Some((items, pieces)))
        } else {
            Ok(None)
        }
    }

    #[tactic(auto, unfolding(java_unit_grammar::specs::Reading::top_step))]
    fn top_step<'a, 'b>(&self, pieces: Pieces<'a>, owner: Owner<'b>) -> Answer<'a, Boxed<JMember>>
        requires nests { Nests self.now.types (F.pre self.now.read) (F.post self.now.read) }
        requires size { length pieces.now < 2 ^ 32 }
        ensures { Gives found (Shorter pieces.now) (r.top_step (r.readers s.steps) (r.tops self.now.types) (owner_seen owner.entry) (shown pieces.now)) result }
    {
        if goes_declared(pieces) {
            return top_declared(self.alloc, pieces, owner);
        }
        if goes_type(pieces) {
            return typed(self.alloc, self, pieces, home_of(owner));
        }
        top_bodied(self.alloc, pieces, owner)
    }
}

impl<
    F: for<'a, 'b> Fn(Global, Pieces<'a>, Owner<'b>, usize) -> Answer<'a, Boxed<JMember>>,
> TypeReader for Tops<F> {
    ghost ready = { λ x. Nests x.types (F.pre x.read) (F.post x.read) };

    ghost depth = { λ x. max_depth };

    ghost nested = { λ x. r.tops x.types };

    ghost parts = { λ x. r.readers s.steps };

    fn head<'a>(&self, pieces: Pieces<'a>) -> Result<Option<Boxed<JTypeHead>>, NoMemory> {
        match type_head(self.alloc, pieces, MAX_DEPTH)? {
            Some(head) => Ok(Some(Boxed::new(self.alloc, head)?)),
            None => Ok(None),
        }
    }

    fn constants<'a>(&self, pieces: Pieces<'a>) -> Answer<'a, ConstantsFound> {
        constants_list(self.alloc, pieces)
    }

    fn members<'a, 'b>(&self, pieces: Pieces<'a>, owner: Owner<'b>) -> Answer<'a, Items<JMember>> {
        self.nested(pieces, owner)
    }
}

/// A member that stands in no expression, where at most `types` members stand in each other, and the
/// pieces after it.
pub fn top<'a, 'b>(
    alloc: Global,
    pieces: Pieces<'a>,
    owner: Owner<'b>,
    types: usize,
) -> Answer<'a, Boxed<JMember>>
    requires size { length pieces.now < 2 ^ 32 }
    ensures { Gives found (Shorter pieces.now) (r.tops types (owner_seen owner.entry) (shown pieces.now)) result }
{
    if types == 0 {
        return Ok(None);
    }
    Tops {
        alloc,
        types: types - 1,
        read: top,
    }
    .top_step(pieces, owner)
}
