// The heads of members.
ghost use Rattle.std.specs.Prelude.{◌≡◌, ◌++◌, IfOk};
ghost use Rattle.java_head_names.specs.Heads as s;

use crate::types::{push_fault, push_list, push_type};
use j2k_base::NoMemory;
use java_classes::NameFault;
use java_member_grammar::{
    JFormals, JMemberHead, JModifier, JResult, JTypeHead, JTypeList, JTypeParams, ModifierKind,
};
use java_tree::{JTypedParam, Position};
use java_type_names::{FileScope, World};
use java_unit_grammar::JMember;
use sqlite_items::Items;
use std::alloc::Global;

fn first_of(at: Position, mods: &[JModifier]) -> Position
    ensures { result ≡ s.first_of at mods.now }
{
    match mods {
        [] => at,
        [x, ..] => x.at,
    }
}

/// The first token of a type.
pub(crate) fn head_at(head: &JTypeHead) -> Position
    ensures { result ≡ s.head_at head.now }
{
    match head {
        JTypeHead::Class(mods, at, ..) => first_of(*at, mods.as_slice()),
        JTypeHead::Interface(mods, at, ..) => first_of(*at, mods.as_slice()),
        JTypeHead::Enum(mods, at, ..) => first_of(*at, mods.as_slice()),
    }
}

fn has_static(mods: &[JModifier]) -> bool
    ensures { result ≡ s.has_static mods.now }
{
    mods.iter().any(|x| x.kind == ModifierKind::Static)
}

fn push_result(
    alloc: Global,
    out: &mut Items<NameFault>,
    world: &World,
    unit: usize,
    scope: &FileScope,
    params: &Option<JTypeParams>,
    is_static: bool,
    x: &JResult,
) -> Result<(), NoMemory>
    ensures { IfOk result (λ u. out.new ≡ out.old ++ s.result_faults world.now unit scope.now params.now is_static x.now) }
{
    match x {
        JResult::Void(_) => Ok(()),
        JResult::Type(kind) => push_type(alloc, out, world, unit, scope, params, is_static, kind),
    }
}

fn push_formals(
    alloc: Global,
    out: &mut Items<NameFault>,
    world: &World,
    unit: usize,
    scope: &FileScope,
    params: &Option<JTypeParams>,
    is_static: bool,
    xs: &[JTypedParam],
) -> Result<(), NoMemory>
    ensures { IfOk result (λ u. out.new ≡ out.old ++ s.formals_faults world.now unit scope.now params.now is_static xs.now) }
{
    for x in xs {
        push_type(alloc, out, world, unit, scope, params, is_static, &x.kind)?;
    }
    Ok(())
}

/// The parameters, and what is thrown.
fn push_signature(
    alloc: Global,
    out: &mut Items<NameFault>,
    world: &World,
    unit: usize,
    scope: &FileScope,
    params: &Option<JTypeParams>,
    is_static: bool,
    formals: &JFormals,
    throws: &Option<JTypeList>,
) -> Result<(), NoMemory>
    ensures { IfOk result (λ u. out.new ≡ out.old ++ (s.formals_faults world.now unit scope.now params.now is_static formals.now.items ++ s.list_faults world.now unit scope.now params.now is_static throws.now)) }
{
    push_formals(
        alloc,
        out,
        world,
        unit,
        scope,
        params,
        is_static,
        formals.items.as_slice(),
    )?;
    push_list(alloc, out, world, unit, scope, params, is_static, throws)
}

/// What stands of a member before its `;` or its block.
fn push_head(
    alloc: Global,
    out: &mut Items<NameFault>,
    world: &World,
    unit: usize,
    scope: &FileScope,
    params: &Option<JTypeParams>,
    is_interface: bool,
    head: &JMemberHead,
) -> Result<(), NoMemory>
    ensures { IfOk result (λ u. out.new ≡ out.old ++ s.member_faults world.now unit scope.now params.now is_interface head.now) }
{
    match head {
        JMemberHead::Field(mods, x) => {
            let is_static = is_interface || has_static(mods.as_slice());
            push_type(alloc, out, world, unit, scope, params, is_static, &x.kind)
        }
        JMemberHead::Method(mods, Some(own), ..) => {
            push_fault(out, unit, first_of(own.opens, mods.as_slice()), 0)
        }
        JMemberHead::Method(mods, None, kind, _, _, formals, throws) => {
            let is_static = has_static(mods.as_slice());
            push_result(alloc, out, world, unit, scope, params, is_static, kind)?;
            push_signature(
                alloc, out, world, unit, scope, params, is_static, formals, throws,
            )
        }
        JMemberHead::Constructor(_, _, _, formals, throws) => {
            push_signature(
                alloc, out, world, unit, scope, params, false, formals, throws,
            )
        }
        JMemberHead::Initializer(_) | JMemberHead::Empty => Ok(()),
    }
}

#[tactic(auto, unfolding(crate::specs::Heads::faults_in))]
fn push_member(
    alloc: Global,
    out: &mut Items<NameFault>,
    world: &World,
    unit: usize,
    scope: &FileScope,
    params: &Option<JTypeParams>,
    is_interface: bool,
    x: &JMember,
) -> Result<(), NoMemory>
    ensures { IfOk result (λ u. out.new ≡ out.old ++ s.faults_in world.now unit scope.now params.now is_interface x.now) }
{
    match x {
        JMember::Declared(head, ..) => {
            push_head(alloc, out, world, unit, scope, params, is_interface, head)
        }
        JMember::Bodied(head, ..) => {
            push_head(alloc, out, world, unit, scope, params, is_interface, head)
        }
        JMember::Type(head, ..) => push_fault(out, unit, head_at(head), 0),
    }
}

pub(crate) fn push_members(
    alloc: Global,
    out: &mut Items<NameFault>,
    world: &World,
    unit: usize,
    scope: &FileScope,
    params: &Option<JTypeParams>,
    is_interface: bool,
    xs: &[JMember],
) -> Result<(), NoMemory>
    ensures { IfOk result (λ u. out.new ≡ out.old ++ s.members_faults world.now unit scope.now params.now is_interface xs.now) }
{
    for x in xs {
        push_member(alloc, out, world, unit, scope, params, is_interface, x)?;
    }
    Ok(())
}
