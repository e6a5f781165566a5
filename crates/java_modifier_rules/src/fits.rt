//! Who a member belongs to, and where a statement stands.

ghost use Rattle.std.specs.Prelude.{◌≡◌};
ghost use Rattle.java_unit_grammar.specs.Standing as u;
ghost use Rattle.java_modifier_rules.specs.Fits.{owner_seen, role_seen};

use crate::members::{class_member_fits, interface_member_fits};
use j2k_base::Name;
use java_member_grammar::{JHome, JMemberHead, JTypeHead};
use java_statement_grammar::JSimple;

/// Where a statement stands: first in the block of a constructor, in a block or a group of a switch,
/// or alone as the part of another statement.
#[derive(Clone, Copy, Debug, PartialEq, Eq)]
pub enum Role {
    First,
    Inner,
    Sole,
}

/// Whose member it is: of a class or an enum, by its name where it has one, or of an interface.
#[derive(Clone, Copy)]
pub enum Owner<'a> {
    Class(Option<&'a Name>),
    Interface,
}

/// Whether a statement may stand in the role: a declaration not alone (JLS 14.4), a call of another
/// constructor only first in one (JLS 8.8.7.1).
pub fn may_stand(place: Role, x: &JSimple) -> bool
    ensures { result ≡ u.may_stand (role_seen place) x.now }
{
    match (place, x) {
        (Role::First, _) => true,
        (Role::Sole, JSimple::Declaration(_)) => false,
        (_, JSimple::ThisCall(_, _, _, _, _) | JSimple::SuperCall(_, _, _, _, _)) => false,
        _ => true,
    }
}

/// Whose the members of a type are.
pub fn owner_of<'a>(x: &'a JTypeHead) -> Owner<'a>
    ensures { owner_seen result ≡ u.owner_of x.now }
{
    match x {
        JTypeHead::Class(_, _, name, _, _, _, _) => Owner::Class(Some(name)),
        JTypeHead::Interface(_, _, _, _, _, _) => Owner::Interface,
        JTypeHead::Enum(_, _, name, _, _) => Owner::Class(Some(name)),
    }
}

/// Where the types among the members stand.
pub fn home_of(owner: Owner) -> JHome
    ensures { result ≡ u.home_of (owner_seen owner.entry) }
{
    match owner {
        Owner::Class(_) => JHome::Class,
        Owner::Interface => JHome::Interface,
    }
}

/// Whether a member with these modifiers, with a block or without, is one that the owner may have
/// (JLS 8.3.1, 8.4.3, 8.4.7, 8.8.3, 9.3, 9.4).
pub fn member_fits(owner: Owner, has_body: bool, x: &JMemberHead) -> bool
    ensures { result ≡ u.member_fits (owner_seen owner.entry) has_body x.now }
{
    match owner {
        Owner::Class(name) => class_member_fits(name, has_body, x),
        Owner::Interface => interface_member_fits(has_body, x),
    }
}
