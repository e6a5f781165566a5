//! Members behind their heads.

ghost use Rattle.std.specs.Prelude.{◌≡◌, ◌≤◌, ◌<◌, ◌+◌, ◌^◌, length};
ghost use Rattle.java_unit_grammar.specs.Reading as r;
ghost use Rattle.java_token_cursor.specs.Shown.{shown};
ghost use Rattle.java_type_parser.specs.Gives.{Gives};
ghost use Rattle.java_modifier_rules.specs.Fits.{owner_seen};
ghost use Rattle.java_block_parser.specs.Asks.{Nests, Shorter, braced, braced_found, found};
ghost use Rattle.java_block_parser.specs.Members.{bodied_end, declared_end};

use crate::asks::{Answer, Ask, Braced, Headed, Part};
use crate::grammar::Grammar;
use crate::tokens::semicolon;
use java_body_cuts::before_curly;
use java_member_grammar::JMemberHead;
use java_modifier_rules::{Owner, member_fits};
use java_token_cursor::Pieces;
use java_type_parser::let_go;
use java_unit_grammar::{JMember, JStatement};
use sqlite_items::Boxed;
use std::alloc::Global;

/// What stands before the first `{`, and what begins with it.
pub fn at_curly<'a>(pieces: Pieces<'a>) -> (Pieces<'a>, Pieces<'a>)
    ensures same { (shown result.0.now, shown result.1.now) ≡ r.before_curly (shown pieces.now) }
    ensures shorter { length result.1.now ≤ length pieces.now }
{
    before_curly(pieces)
}

/// A member where a `;` comes first of the pieces.
pub fn declared_end<'a, 'b>(
    alloc: Global,
    owner: Owner<'b>,
    headed: Headed<JMemberHead>,
    pieces: Pieces<'a>,
) -> Answer<'a, Boxed<JMember>>
    ensures { Gives found (Shorter pieces.now) (declared_end (owner_seen owner.entry) headed.0 headed.1 (shown pieces.now)) result }
{
    match semicolon(pieces) {
        Some((end, rest)) if member_fits(owner, false, headed.0.get()) => {
            let (head, bodies) = headed;
            let tree = JMember::Declared(head.into_inner(), bodies, end);
            Ok(Some((Boxed::new(alloc, tree)?, rest)))
        }
        _ => {
            let_go(headed);
            Ok(None)
        }
    }
}

/// A member with its block.
pub fn bodied_end<'a, 'b>(
    alloc: Global,
    owner: Owner<'b>,
    head: Boxed<JMemberHead>,
    block: Braced<JStatement>,
    behind: Pieces<'a>,
) -> Answer<'a, Boxed<JMember>>
    ensures { Gives found (Shorter behind.now) (bodied_end (owner_seen owner.entry) head (braced block) (shown behind.now)) result }
{
    if !member_fits(owner, true, head.get()) {
        let_go((head, block));
        return Ok(None);
    }
    let (left, items, right) = block;
    let tree = JMember::Bodied(head.into_inner(), left, items, right);
    Ok(Some((Boxed::new(alloc, tree)?, behind)))
}

impl<F: for<'a, 'b> Fn(Global, Pieces<'a>, Ask<'b>, usize, usize) -> Answer<'a, Part>> Grammar<F> {
    /// The block of a member.
    pub fn member_block<'a>(
        &self,
        head: &JMemberHead,
        pieces: Pieces<'a>,
        depth: usize,
    ) -> Answer<'a, Braced<JStatement>>
        requires nests { Nests self.now.depth self.now.steps (F.pre self.now.read) (F.post self.now.read) }
        requires size { length pieces.now < 2 ^ 32 }
        requires room { depth + self.now.steps ≤ 1000 }
        ensures { Gives braced_found (Shorter pieces.now) (r.member_block (r.readers self.now.steps) depth head.now (shown pieces.now)) result }
    {
        match head {
            JMemberHead::Constructor(..) => self.first_block(pieces, depth),
            _ => self.block(pieces, depth),
        }
    }
}
