//! Types, with what stands between their braces.

ghost use Rattle.std.specs.Prelude.{◌≡◌, ◌≤◌, ◌<◌, ◌^◌, ℕ, IfOk, length};
ghost use Rattle.java_expr_grammar.specs.Reading.{Reader};
ghost use Rattle.java_member_grammar.specs.Reading as m;
ghost use Rattle.java_unit_grammar.specs.declared.statements.JMember.{JMember};
ghost use Rattle.java_unit_grammar.specs.Standing as s;
ghost use Rattle.java_unit_grammar.specs.Reading as r;
ghost use Rattle.java_token_cursor.specs.Shown.{shown};
ghost use Rattle.java_type_parser.specs.Gives.{Gives};
ghost use Rattle.java_modifier_rules.specs.Fits.{owner_seen};
ghost use Rattle.java_block_parser.specs.Asks.{Shorter, constants_found, found};
ghost use Rattle.java_block_parser.specs.Members.{enum_seen, inside_found, inside_seen, plain_seen, type_behind, type_end};

use crate::asks::Answer;
use crate::members::at_curly;
use crate::tokens::{close_curly, open_curly};
use j2k_base::NoMemory;
use java_member_grammar::{JConstants, JHome, JTypeHead};
use java_modifier_rules::{Owner, owner_of, type_fits};
use java_token_cursor::Pieces;
use java_tree::Position;
use java_type_parser::let_go;
use java_unit_grammar::{JBody, JMember};
use sqlite_items::{Boxed, Items};
use std::alloc::Global;

/// The constants of an enum, and the bodies of their arguments.
#[derive(Drop)]
pub struct ConstantsFound {
    pub head: Boxed<JConstants>,
    pub bodies: Items<JBody>,
}

/// What stands between the braces of a type.
#[derive(Drop)]
struct Inside {
    constants: Option<Boxed<JConstants>>,
    bodies: Items<JBody>,
    members: Items<JMember>,
}

impl Inside {
    /// Of an enum.
    fn of_enum(list: ConstantsFound, members: Items<JMember>) -> Inside
        ensures { inside_seen result ≡ enum_seen list members }
    {
        let ConstantsFound { head, bodies } = list;
        Inside {
            constants: Some(head),
            bodies,
            members,
        }
    }

    /// Of a class or an interface.
    fn plain(alloc: Global, members: Items<JMember>) -> Inside
        ensures { inside_seen result ≡ plain_seen members }
    {
        Inside {
            constants: None,
            bodies: Items::new(alloc),
            members,
        }
    }
}

fn unboxed(constants: Option<Boxed<JConstants>>) -> Option<JConstants>
    ensures { result ≡ constants }
{
    match constants {
        Some(constants) => Some(constants.into_inner()),
        None => None,
    }
}

/// A type in a place, where a `}` comes first of the pieces.
fn type_end<'a>(
    alloc: Global,
    place: JHome,
    head: (Boxed<JTypeHead>, Position),
    inside: Inside,
    pieces: Pieces<'a>,
) -> Answer<'a, Boxed<JMember>>
    ensures { Gives found (Shorter pieces.now) (type_end place head.0 head.1 (inside_seen inside) (shown pieces.now)) result }
{
    let (head, left) = head;
    match close_curly(pieces) {
        Some((right, rest)) if type_fits(place, head.get()) => {
            let Inside {
                constants,
                bodies,
                members,
            } = inside;
            let constants = unboxed(constants);
            let tree = JMember::Type(head.into_inner(), left, constants, bodies, members, right);
            Ok(Some((Boxed::new(alloc, tree)?, rest)))
        }
        _ => {
            let_go((head, inside));
            Ok(None)
        }
    }
}

/// A reader of what a type consists of.
pub trait TypeReader {
    // what it has to know
    ghost ready: { Self → Type 0 };

    // how deep the parts of the head may be
    ghost depth: { Self → ℕ };

    // the members
    ghost nested: { Self → s.Owner → Reader JMember };

    // the bodies in constants
    ghost parts: { Self → r.Readers };

    /// The head that all of the pieces are.
    fn head<'a>(&self, pieces: Pieces<'a>) -> Result<Option<Boxed<JTypeHead>>, NoMemory>
        ensures { IfOk result (λ x. x ≡ m.type_head (depth self.now) (shown pieces.now)) };

    /// The constants of an enum as far as what follows them (JLS 8.9.1).
    fn constants<'a>(&self, pieces: Pieces<'a>) -> Answer<'a, ConstantsFound>
        requires ready { ready self.now }
        requires size { length pieces.now < 2 ^ 32 }
        ensures { Gives constants_found (Shorter pieces.now) (r.constants_list (parts self.now) (shown pieces.now)) result };

    /// The members as far as the `}`.
    fn members<'a, 'b>(&self, pieces: Pieces<'a>, owner: Owner<'b>) -> Answer<'a, Items<JMember>>
        requires ready { ready self.now }
        requires size { length pieces.now < 2 ^ 32 }
        ensures { Gives found (Shorter pieces.now) (r.until r.begins_close (nested self.now (owner_seen owner.entry)) (shown pieces.now)) result };
}

/// The members behind the `;` of constants, where it stands.
fn members_behind<'a, 'b, T: TypeReader>(
    alloc: Global,
    reader: &T,
    end: Option<Position>,
    pieces: Pieces<'a>,
    owner: Owner<'b>,
) -> Answer<'a, Items<JMember>>
    requires ready { T.ready reader.now }
    requires size { length pieces.now < 2 ^ 32 }
    ensures { Gives found (Shorter pieces.now) (r.members_behind end (r.until r.begins_close (T.nested reader.now (owner_seen owner.entry))) (shown pieces.now)) result }
{
    match end {
        None => Ok(Some((Items::new(alloc), pieces))),
        Some(_) => reader.members(pieces, owner),
    }
}

/// The constants of an enum, and the members behind them (JLS 8.9).
#[tactic(auto, unfolding(java_unit_grammar::specs::Reading::enum_inside))]
fn enum_inside<'a, 'b, T: TypeReader>(
    alloc: Global,
    reader: &T,
    pieces: Pieces<'a>,
    owner: Owner<'b>,
) -> Answer<'a, Inside>
    requires ready { T.ready reader.now }
    requires size { length pieces.now < 2 ^ 32 }
    ensures { Gives inside_found (Shorter pieces.now) (r.enum_inside (T.parts reader.now) (r.until r.begins_close (T.nested reader.now (owner_seen owner.entry))) (shown pieces.now)) result }
{
    let Some((list, rest)) = reader.constants(pieces)? else {
        return Ok(None);
    };
    let end = list.head.get().end;
    match members_behind(alloc, reader, end, rest, owner) {
        Ok(Some((members, rest))) => Ok(Some((Inside::of_enum(list, members), rest))),
        Ok(None) => {
            let_go(list);
            Ok(None)
        }
        Err(error) => {
            let_go(list);
            Err(error)
        }
    }
}

/// The members of a class or an interface (JLS 8.1.6, 9.1.4).
#[tactic(auto, unfolding(java_unit_grammar::specs::Reading::plain_inside))]
fn plain_inside<'a, 'b, T: TypeReader>(
    alloc: Global,
    reader: &T,
    pieces: Pieces<'a>,
    owner: Owner<'b>,
) -> Answer<'a, Inside>
    requires ready { T.ready reader.now }
    requires size { length pieces.now < 2 ^ 32 }
    ensures { Gives inside_found (Shorter pieces.now) (r.plain_inside (T.parts reader.now) (r.until r.begins_close (T.nested reader.now (owner_seen owner.entry))) (shown pieces.now)) result }
{
    let Some((members, rest)) = reader.members(pieces, owner)? else {
        return Ok(None);
    };
    Ok(Some((Inside::plain(alloc, members), rest)))
}

/// What stands between the braces behind the head.
fn inside_of<'a, T: TypeReader>(
    alloc: Global,
    reader: &T,
    head: &JTypeHead,
    pieces: Pieces<'a>,
) -> Answer<'a, Inside>
    requires ready { T.ready reader.now }
    requires size { length pieces.now < 2 ^ 32 }
    ensures { Gives inside_found (Shorter pieces.now) (r.inside (T.parts reader.now) head.now (r.until r.begins_close (T.nested reader.now (s.owner_of head.now))) (shown pieces.now)) result }
{
    let owner = owner_of(head);
    match head {
        JTypeHead::Enum(..) => enum_inside(alloc, reader, pieces, owner),
        _ => plain_inside(alloc, reader, pieces, owner),
    }
}

/// Behind the head of a type.
fn type_behind<'a, T: TypeReader>(
    alloc: Global,
    reader: &T,
    place: JHome,
    head: Boxed<JTypeHead>,
    pieces: Pieces<'a>,
) -> Answer<'a, Boxed<JMember>>
    requires ready { T.ready reader.now }
    requires size { length pieces.now < 2 ^ 32 }
    ensures { Gives found (Shorter pieces.now) (type_behind (T.parts reader.now) (T.nested reader.now) place head (shown pieces.now)) result }
{
    let Some((left, rest)) = open_curly(pieces) else {
        let_go(head);
        return Ok(None);
    };
    match inside_of(alloc, reader, head.get(), rest) {
        Ok(Some((inside, rest))) => type_end(alloc, place, (head, left), inside, rest),
        Ok(None) => {
            let_go(head);
            Ok(None)
        }
        Err(error) => {
            let_go(head);
            Err(error)
        }
    }
}

/// A type that stands in the place.
#[tactic(auto, unfolding(java_unit_grammar::specs::Reading::typed))]
pub fn typed<'a, T: TypeReader>(
    alloc: Global,
    reader: &T,
    pieces: Pieces<'a>,
    place: JHome,
) -> Answer<'a, Boxed<JMember>>
    requires ready { T.ready reader.now }
    requires size { length pieces.now < 2 ^ 32 }
    ensures { Gives found (Shorter pieces.now) (r.typed (T.parts reader.now) (T.depth reader.now) (T.nested reader.now) place (shown pieces.now)) result }
{
    let (text, behind) = at_curly(pieces);
    match reader.head(text) {
        Ok(Some(head)) => type_behind(alloc, reader, place, head, behind),
        Ok(None) => Ok(None),
        Err(error) => Err(error),
    }
}
