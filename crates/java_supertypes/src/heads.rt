// What stands directly above each class.
ghost use Rattle.std.specs.Prelude.{◌≡◌, ◌++◌, ◌∷◌, [], IfOk, slice_get};
ghost use Rattle.java_supertypes.specs.Supertypes as s;

use crate::supers::super_class;
use j2k_base::NoMemory;
use java_member_grammar::{JBound, JTypeHead, JTypeList, JTypeParams};
use java_tree::JType;
use java_type_names::{FileScope, Meant, World};
use java_unit_grammar::{JMember, JUnit};
use sqlite_items::Items;
use std::alloc::Global;

#[derive(Clone, Copy, PartialEq, Eq)]
pub enum ClassKind {
    Class,
    Interface,
    Enum,
}

/// A class or interface: what it is, and what stands directly above it, where that is known: the class first.
#[derive(Drop)]
pub struct Heading {
    pub kind: ClassKind,
    pub above: Items<Meant>,
}

/// The number of Object in the library.
const OBJECT: u8 = 0;

fn push_object(out: &mut Items<Meant>) -> Result<(), NoMemory>
    ensures { IfOk result (λ u. out.new ≡ out.old ++ (s.object ∷ [])) }
{
    out.push(Meant::Library(OBJECT))?;
    Ok(())
}

fn push_known(out: &mut Items<Meant>, class: Option<Meant>) -> Result<(), NoMemory>
    ensures { IfOk result (λ u. out.new ≡ out.old ++ s.if_known class) }
{
    if let Some(class) = class {
        out.push(class)?;
    }
    Ok(())
}

fn push_each(
    alloc: Global,
    out: &mut Items<Meant>,
    world: &World,
    scope: &FileScope,
    params: &Option<JTypeParams>,
    xs: &[JType],
) -> Result<(), NoMemory>
    ensures { IfOk result (λ u. out.new ≡ out.old ++ s.each world.now scope.now params.now xs.now) }
{
    for x in xs {
        let class = super_class(alloc, world, scope, params, x)?;
        push_known(out, class)?;
    }
    Ok(())
}

fn push_listed(
    alloc: Global,
    out: &mut Items<Meant>,
    world: &World,
    scope: &FileScope,
    params: &Option<JTypeParams>,
    list: &Option<JTypeList>,
) -> Result<(), NoMemory>
    ensures { IfOk result (λ u. out.new ≡ out.old ++ s.listed world.now scope.now params.now list.now) }
{
    match list {
        None => Ok(()),
        Some(list) => push_each(alloc, out, world, scope, params, list.items.as_slice()),
    }
}

fn push_extended(
    alloc: Global,
    out: &mut Items<Meant>,
    world: &World,
    scope: &FileScope,
    params: &Option<JTypeParams>,
    bound: &Option<JBound>,
) -> Result<(), NoMemory>
    ensures { IfOk result (λ u. out.new ≡ out.old ++ s.extended world.now scope.now params.now bound.now) }
{
    match bound {
        None => push_object(out),
        Some(bound) => {
            let class = super_class(alloc, world, scope, params, &bound.kind)?;
            push_known(out, class)
        }
    }
}

fn push_joined(
    alloc: Global,
    out: &mut Items<Meant>,
    world: &World,
    scope: &FileScope,
    params: &Option<JTypeParams>,
    list: &Option<JTypeList>,
) -> Result<(), NoMemory>
    ensures { IfOk result (λ u. out.new ≡ out.old ++ s.joined world.now scope.now params.now list.now) }
{
    match list {
        None => push_object(out),
        Some(list) => push_each(alloc, out, world, scope, params, list.items.as_slice()),
    }
}

fn push_above(
    alloc: Global,
    out: &mut Items<Meant>,
    world: &World,
    scope: &FileScope,
    head: &JTypeHead,
) -> Result<ClassKind, NoMemory>
    ensures kind { IfOk result (λ kind. kind ≡ (s.heading world.now scope.now head.now).kind) }
    ensures above { IfOk result (λ kind. out.new ≡ out.old ++ (s.heading world.now scope.now head.now).above) }
{
    match head {
        JTypeHead::Class(_, _, _, _, params, bound, list) => {
            push_extended(alloc, out, world, scope, params, bound)?;
            push_listed(alloc, out, world, scope, params, list)?;
            Ok(ClassKind::Class)
        }
        JTypeHead::Interface(_, _, _, _, params, list) => {
            push_joined(alloc, out, world, scope, params, list)?;
            Ok(ClassKind::Interface)
        }
        JTypeHead::Enum(_, _, _, _, list) => {
            push_listed(alloc, out, world, scope, &None, list)?;
            Ok(ClassKind::Enum)
        }
    }
}

fn class_heading(
    alloc: Global,
    world: &World,
    scope: &FileScope,
    head: &JTypeHead,
) -> Result<Heading, NoMemory>
    ensures { IfOk result (λ x. x ≡ s.heading world.now scope.now head.now) }
{
    let mut above = Items::new(alloc);
    let kind = push_above(alloc, &mut above, world, scope, head)?;
    Ok(Heading { kind, above })
}

/// A type, or a `;`.
#[tactic(auto, unfolding(crate::specs::Supertypes::type_heading))]
fn push_type(
    alloc: Global,
    out: &mut Items<Heading>,
    world: &World,
    scope: &FileScope,
    x: &JMember,
) -> Result<(), NoMemory>
    ensures { IfOk result (λ u. out.new ≡ out.old ++ s.type_heading world.now scope.now x.now) }
{
    match x {
        JMember::Type(head, ..) => {
            out.push(class_heading(alloc, world, scope, head)?)?;
            Ok(())
        }
        _ => Ok(()),
    }
}

fn push_types(
    alloc: Global,
    out: &mut Items<Heading>,
    world: &World,
    scope: &FileScope,
    xs: &[JMember],
) -> Result<(), NoMemory>
    ensures { IfOk result (λ u. out.new ≡ out.old ++ s.types_headings world.now scope.now xs.now) }
{
    for x in xs {
        push_type(alloc, out, world, scope, x)?;
    }
    Ok(())
}

fn push_unit(
    alloc: Global,
    out: &mut Items<Heading>,
    world: &World,
    scopes: &[FileScope],
    number: usize,
    x: &JUnit,
) -> Result<(), NoMemory>
    ensures { IfOk result (λ u. out.new ≡ out.old ++ s.unit_headings world.now scopes.now (slice_get scopes.now number) x.now) }
{
    match scopes.get(number) {
        None => Ok(()),
        Some(scope) => push_types(alloc, out, world, scope, x.types.as_slice()),
    }
}

/// What stands directly above each class of the project, by its number. The scopes are those of the files, in their order.
pub fn headings(
    alloc: Global,
    world: &World,
    scopes: &[FileScope],
    units: &[JUnit],
) -> Result<Items<Heading>, NoMemory>
    ensures { IfOk result (λ xs. xs ≡ s.headings world.now scopes.now units.now) }
{
    let mut out = Items::new(alloc);
    for (number, unit) in units.iter().enumerate() {
        push_unit(alloc, &mut out, world, scopes, number, unit)?;
    }
    Ok(out)
}
