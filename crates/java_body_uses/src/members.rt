// Members.
ghost use Rattle.std.specs.Prelude.{◌≡◌, ◌++◌, IfOk, Some, false, map};
ghost use Rattle.java_body_uses.specs.Bodies as s;
ghost use Rattle.java_body_uses.specs.declared.members.Member.TheVariants.{Initial, Called};
ghost use Rattle.java_name_uses.specs.Uses as n;

use crate::blocks::{filled, statements};
use j2k_base::NoMemory;
use java_member_grammar::{
    JFormals, JHome, JMemberHead, JModifier, JResult, JTypeHead, JTypeList, JTypeParams,
    ModifierKind,
};
use java_name_uses::{Uses, declared_type, initial, parameters, type_list};
use java_statement_grammar::{JDeclaration, JDeclarator};
use java_tree::Position;
use java_unit_grammar::{JBody, JMember, JStatement};
use sqlite_items::Items;
use std::alloc::Global;

/// What a member is, whose own context is given by it, and what it says.
#[derive(Drop)]
pub enum Member {
    /// A field or an initializer: whether it is static, what it says. No `return` may stand there (JLS 14.17).
    Initial(bool, Uses),
    /// A method or a constructor: whether it is static, what it says.
    Called(bool, Uses),
    /// A form that isn't built yet, by its first token.
    Later(Position),
}

fn has_static(mods: &[JModifier]) -> bool
    ensures { result ≡ s.has_static mods.now }
{
    mods.iter().any(|x| x.kind == ModifierKind::Static)
}

fn in_interface(place: JHome) -> bool
    ensures { result ≡ s.in_interface place }
{
    matches!(place, JHome::Interface)
}

fn first_at(mods: &[JModifier], at: Position) -> Position
    ensures { result ≡ s.first_at mods.now at }
{
    match mods {
        [] => at,
        [x, ..] => x.at,
    }
}

fn put_result(alloc: Global, out: &mut Uses, x: &JResult) -> Result<(), NoMemory>
    ensures { IfOk result (λ u. out.new ≡ out.old ++ s.result_uses x.now) }
{
    match x {
        JResult::Void(_) => Ok(()),
        JResult::Type(kind) => declared_type(alloc, out, kind),
    }
}

fn put_throws(alloc: Global, out: &mut Uses, x: &Option<JTypeList>) -> Result<(), NoMemory>
    ensures { IfOk result (λ u. out.new ≡ out.old ++ s.throws_uses x.now) }
{
    match x {
        None => Ok(()),
        Some(list) => type_list(alloc, out, list.items.as_slice()),
    }
}

fn put_values(alloc: Global, out: &mut Uses, xs: &[JDeclarator]) -> Result<(), NoMemory>
    ensures { IfOk result (λ u. out.new ≡ out.old ++ n.all (map s.field_value xs.now)) }
{
    for x in xs {
        initial(alloc, out, &x.value)?;
    }
    Ok(())
}

/// The types and the values of fields.
fn field_uses(alloc: Global, x: &JDeclaration) -> Result<Uses, NoMemory>
    ensures { IfOk result (λ uses. uses ≡ s.field_uses x.now) }
{
    let mut head = Items::new(alloc);
    declared_type(alloc, &mut head, &x.kind)?;
    put_values(alloc, &mut head, x.names.as_slice())?;
    Ok(head)
}

fn field(
    alloc: Global,
    is_static: bool,
    x: &JDeclaration,
    bodies: &[JBody],
) -> Result<Option<Member>, NoMemory>
    ensures { IfOk result (λ member. member ≡ Some (Initial is_static (s.filled (s.field_uses x.now) (map s.body_uses bodies.now)))) }
{
    let head = field_uses(alloc, x)?;
    let mut out = Items::new(alloc);
    filled(alloc, &mut out, head, bodies)?;
    Ok(Some(Member::Initial(is_static, out)))
}

fn initializer(
    alloc: Global,
    is_static: bool,
    body: &[JStatement],
) -> Result<Option<Member>, NoMemory>
    ensures { IfOk result (λ member. member ≡ Some (Initial is_static (s.statements body.now))) }
{
    let mut out = Items::new(alloc);
    statements(alloc, &mut out, body)?;
    Ok(Some(Member::Initial(is_static, out)))
}

/// What the parameters, `throws` and the body of a method or a constructor say.
fn put_called(
    alloc: Global,
    out: &mut Uses,
    formals: &JFormals,
    throws: &Option<JTypeList>,
    body: &[JStatement],
) -> Result<(), NoMemory>
    ensures { IfOk result (λ u. out.new ≡ out.old ++ s.head_uses formals.now throws.now (s.statements body.now)) }
{
    parameters(alloc, out, formals.items.as_slice())?;
    put_throws(alloc, out, throws)?;
    statements(alloc, out, body)
}

fn constructor(
    alloc: Global,
    formals: &JFormals,
    throws: &Option<JTypeList>,
    body: &[JStatement],
) -> Result<Option<Member>, NoMemory>
    ensures { IfOk result (λ member. member ≡ Some (Called false (s.head_uses formals.now throws.now (s.statements body.now)))) }
{
    let mut out = Items::new(alloc);
    put_called(alloc, &mut out, formals, throws, body)?;
    Ok(Some(Member::Called(false, out)))
}

/// A method, which isn't built yet where it is generic.
fn method(
    alloc: Global,
    mods: &[JModifier],
    params: &Option<JTypeParams>,
    gives: &JResult,
    formals: &JFormals,
    throws: &Option<JTypeList>,
    body: &[JStatement],
) -> Result<Option<Member>, NoMemory>
    ensures { IfOk result (λ member. member ≡ Some (s.method mods.now params.now gives.now formals.now throws.now (s.statements body.now))) }
{
    if let Some(params) = params {
        return Ok(Some(Member::Later(first_at(mods, params.opens))));
    }
    let mut out = Items::new(alloc);
    put_result(alloc, &mut out, gives)?;
    put_called(alloc, &mut out, formals, throws, body)?;
    Ok(Some(Member::Called(has_static(mods), out)))
}

fn headed(
    alloc: Global,
    place: JHome,
    head: &JMemberHead,
    bodies: &[JBody],
    body: &[JStatement],
) -> Result<Option<Member>, NoMemory>
    ensures { IfOk result (λ member. member ≡ s.head_member place head.now (map s.body_uses bodies.now) (s.statements body.now)) }
{
    match head {
        JMemberHead::Empty => Ok(None),
        JMemberHead::Field(mods, x) => {
            let is_static = has_static(mods.as_slice()) || in_interface(place);
            field(alloc, is_static, x, bodies)
        }
        JMemberHead::Method(mods, params, gives, _, _, formals, throws) => {
            method(alloc, mods.as_slice(), params, gives, formals, throws, body)
        }
        JMemberHead::Constructor(_, _, _, formals, throws) => {
            constructor(alloc, formals, throws, body)
        }
        JMemberHead::Initializer(None) => initializer(alloc, false, body),
        JMemberHead::Initializer(Some(_)) => initializer(alloc, true, body),
    }
}

fn type_at(head: &JTypeHead) -> Position
    ensures { result ≡ s.type_at head.now }
{
    match head {
        JTypeHead::Class(mods, at, ..) => first_at(mods.as_slice(), *at),
        JTypeHead::Interface(mods, at, ..) => first_at(mods.as_slice(), *at),
        JTypeHead::Enum(mods, at, ..) => first_at(mods.as_slice(), *at),
    }
}

/// What a member of a class or an interface says of names; None where it says nothing. A member type isn't built yet.
#[tactic(auto, unfolding(crate::specs::Bodies::member_uses))]
pub fn member_uses(alloc: Global, place: JHome, x: &JMember) -> Result<Option<Member>, NoMemory>
    ensures { IfOk result (λ member. member ≡ s.member_uses place x.now) }
{
    match x {
        JMember::Declared(head, bodies, _) => headed(alloc, place, head, bodies.as_slice(), &[]),
        JMember::Bodied(head, _, xs, _) => headed(alloc, place, head, &[], xs.as_slice()),
        JMember::Type(head, ..) => Ok(Some(Member::Later(type_at(head)))),
    }
}
