//! Members of types.

ghost use Rattle.std.specs.Prelude.{◌≡◌, ◌≤◌, ◌<◌, ◌+◌, ◌^◌, length, IfOk};
ghost use Rattle.java_member_grammar.specs.Reading as m;
ghost use Rattle.java_unit_grammar.specs.Reading as r;
ghost use Rattle.java_token_cursor.specs.Shown.{shown};
ghost use Rattle.java_type_parser.specs.Gives.{Gives};
ghost use Rattle.java_modifier_rules.specs.Fits.{owner_seen};
ghost use Rattle.java_block_parser.specs.Asks.{Nests, Shorter, found};
ghost use Rattle.java_body_parser.specs.Members.{bodied_behind, levels_of};

use crate::rules::{Depths, Rules};
use j2k_base::NoMemory;
use java_block_parser::{Answer, Ask, Part, at_curly, bodied_end, declared_end, typed};
use java_body_cuts::{Stop, goes_declared, goes_type};
use java_member_grammar::JMemberHead;
use java_member_parser::before_block;
use java_modifier_rules::{Owner, home_of};
use java_token_cursor::Pieces;
use java_type_parser::let_go;
use java_unit_grammar::JMember;
use sqlite_items::Boxed;
use std::alloc::Global;

/// The head of a member, where a block follows the pieces.
fn bodied_head<'a>(
    alloc: Global,
    pieces: Pieces<'a>,
    depths: Depths,
) -> Result<Option<Boxed<JMemberHead>>, NoMemory>
    ensures { IfOk result (λ x. x ≡ m.before_block depths.types depths.values (shown pieces.now)) }
{
    match before_block(alloc, pieces, depths.types, depths.values)? {
        Some(head) => Ok(Some(Boxed::new(alloc, head)?)),
        None => Ok(None),
    }
}

impl<F: for<'a, 'b> Fn(Global, Pieces<'a>, Ask<'b>, usize, usize) -> Answer<'a, Part>> Rules<F> {
    /// A member that ends in a `;`.
    #[tactic(auto, unfolding(java_unit_grammar::specs::Reading::declared))]
    pub fn declared<'a, 'b>(
        &self,
        pieces: Pieces<'a>,
        owner: Owner<'b>,
        depths: Depths,
    ) -> Answer<'a, Boxed<JMember>>
        requires nests { Nests self.now.parts.depth self.now.parts.steps (F.pre self.now.parts.read) (F.post self.now.parts.read) }
        requires size { length pieces.now < 2 ^ 32 }
        requires room { depths.holder + self.now.parts.steps ≤ 998 }
        ensures { Gives found (Shorter pieces.now) (r.declared (r.readers self.now.parts.steps) depths.types depths.values depths.holder (levels_of depths.is_top) (owner_seen owner.entry) (shown pieces.now)) result }
    {
        match self.head(depths, Stop::Semicolon, pieces, depths.holder) {
            Ok(Some((headed, rest))) => declared_end(self.parts.alloc, owner, headed, rest),
            Ok(None) => Ok(None),
            Err(error) => Err(error),
        }
    }

    /// A member that ends in a block.
    #[tactic(auto, unfolding(java_unit_grammar::specs::Reading::bodied))]
    pub fn bodied<'a, 'b>(
        &self,
        pieces: Pieces<'a>,
        owner: Owner<'b>,
        depths: Depths,
    ) -> Answer<'a, Boxed<JMember>>
        requires nests { Nests self.now.parts.depth self.now.parts.steps (F.pre self.now.parts.read) (F.post self.now.parts.read) }
        requires size { length pieces.now < 2 ^ 32 }
        requires room { depths.holder + self.now.parts.steps ≤ 998 }
        ensures { Gives found (Shorter pieces.now) (r.bodied (r.readers self.now.parts.steps) depths.types depths.values depths.holder (owner_seen owner.entry) (shown pieces.now)) result }
    {
        let (before, behind) = at_curly(pieces);
        match bodied_head(self.parts.alloc, before, depths) {
            Ok(Some(head)) => self.bodied_behind(owner, head, behind, depths.holder),
            Ok(None) => Ok(None),
            Err(error) => Err(error),
        }
    }

    /// Behind the head of a member with a block.
    fn bodied_behind<'a, 'b>(
        &self,
        owner: Owner<'b>,
        head: Boxed<JMemberHead>,
        pieces: Pieces<'a>,
        depth: usize,
    ) -> Answer<'a, Boxed<JMember>>
        requires nests { Nests self.now.parts.depth self.now.parts.steps (F.pre self.now.parts.read) (F.post self.now.parts.read) }
        requires size { length pieces.now < 2 ^ 32 }
        requires room { depth + self.now.parts.steps ≤ 998 }
        ensures { Gives found (Shorter pieces.now) (bodied_behind (r.readers self.now.parts.steps) depth (owner_seen owner.entry) head (shown pieces.now)) result }
    {
        match self.parts.member_block(head.get(), pieces, depth) {
            Ok(Some((block, rest))) => bodied_end(self.parts.alloc, owner, head, block, rest),
            Ok(None) => {
                let_go(head);
                Ok(None)
            }
            Err(error) => {
                let_go(head);
                Err(error)
            }
        }
    }

    /// A member that stands in an expression (JLS 8.2, 9.1.4).
    #[tactic(auto, unfolding(java_unit_grammar::specs::Reading::member_step))]
    pub fn member_step<'a, 'b>(
        &self,
        pieces: Pieces<'a>,
        owner: Owner<'b>,
    ) -> Answer<'a, Boxed<JMember>>
        requires nests { Nests self.now.parts.depth self.now.parts.steps (F.pre self.now.parts.read) (F.post self.now.parts.read) }
        requires size { length pieces.now < 2 ^ 32 }
        ensures { Gives found (Shorter pieces.now) (r.member_step (r.readers self.now.parts.steps) self.now.parts.depth (owner_seen owner.entry) (shown pieces.now)) result }
    {
        let depths = Depths {
            types: self.parts.depth,
            values: self.parts.depth,
            holder: self.parts.depth,
            is_top: false,
        };
        if goes_declared(pieces) {
            return self.declared(pieces, owner, depths);
        }
        if goes_type(pieces) {
            return typed(self.parts.alloc, self, pieces, home_of(owner));
        }
        self.bodied(pieces, owner, depths)
    }
}
