// The names of types.
ghost use Rattle.std.specs.Prelude.{◌≡◌, ◌++◌, IfOk};
ghost use Rattle.java_head_names.specs.Heads as s;

use j2k_base::NoMemory;
use java_classes::{NameFault, put_if};
use java_member_grammar::{JBound, JTypeList, JTypeParam, JTypeParams};
use java_supertypes::{is_parameter, place_of};
use java_tree::{JDotted, JQualified, JType, Position};
use java_type_names::{FileScope, Place, World};
use sqlite_items::Items;
use std::alloc::Global;

/// The last identifier of a name.
fn last_at(at: Position, xs: &[JDotted]) -> Position
    ensures { result ≡ s.last_at at xs.now }
{
    let mut last = at;
    for x in xs {
        last = x.at;
    }
    last
}

pub(crate) fn push_fault(
    out: &mut Items<NameFault>,
    unit: usize,
    at: Position,
    number: u8,
) -> Result<(), NoMemory>
    ensures { IfOk result (λ u. out.new ≡ out.old ++ s.fault unit at number) }
{
    put_if(out, true, unit, at, number)
}

fn push_place(
    out: &mut Items<NameFault>,
    unit: usize,
    x: &JQualified,
    place: Place,
) -> Result<(), NoMemory>
    ensures { IfOk result (λ u. out.new ≡ out.old ++ s.place_faults unit x.now place) }
{
    match place {
        Place::Class(_) => Ok(()),
        Place::Package => push_fault(out, unit, last_at(x.at, x.rest.as_slice()), 1),
        Place::Lost(lost) => push_fault(out, unit, lost, 1),
        Place::Ambiguous(lost) => push_fault(out, unit, lost, 4),
    }
}

fn push_behind(out: &mut Items<NameFault>, unit: usize, xs: &[JDotted]) -> Result<(), NoMemory>
    ensures { IfOk result (λ u. out.new ≡ out.old ++ s.behind unit xs.now) }
{
    match xs {
        [] => Ok(()),
        [x, ..] => push_fault(out, unit, x.at, 1),
    }
}

fn push_parameter(
    out: &mut Items<NameFault>,
    unit: usize,
    is_static: bool,
    x: &JQualified,
) -> Result<(), NoMemory>
    ensures { IfOk result (λ u. out.new ≡ out.old ++ s.parameter_faults unit is_static x.now) }
{
    if is_static {
        push_fault(out, unit, x.at, 1)
    } else {
        push_behind(out, unit, x.rest.as_slice())
    }
}

fn push_name(
    alloc: Global,
    out: &mut Items<NameFault>,
    world: &World,
    unit: usize,
    scope: &FileScope,
    params: &Option<JTypeParams>,
    is_static: bool,
    x: &JQualified,
) -> Result<(), NoMemory>
    ensures { IfOk result (λ u. out.new ≡ out.old ++ s.name_faults world.now unit scope.now params.now is_static x.now) }
{
    if is_parameter(params, &x.name) {
        return push_parameter(out, unit, is_static, x);
    }
    let place = place_of(alloc, world, scope, x)?;
    push_place(out, unit, x, place)
}

/// The names in a type (JLS 4).
#[cycle(types)]
#[tactic(auto, using(crate::proofs::Parts::of_types))]
pub(crate) fn push_type(
    alloc: Global,
    out: &mut Items<NameFault>,
    world: &World,
    unit: usize,
    scope: &FileScope,
    params: &Option<JTypeParams>,
    is_static: bool,
    x: &JType,
) -> Result<(), NoMemory>
    ensures { IfOk result (λ u. out.new ≡ out.old ++ s.type_faults world.now unit scope.now params.now is_static x.now) }
{
    push_form(alloc, out, world, unit, scope, params, is_static, x)
}

#[cycle(types)]
fn push_form(
    alloc: Global,
    out: &mut Items<NameFault>,
    world: &World,
    unit: usize,
    scope: &FileScope,
    params: &Option<JTypeParams>,
    is_static: bool,
    x: &JType,
) -> Result<(), NoMemory>
    ensures { IfOk result (λ u. out.new ≡ out.old ++ s.type_form world.now unit scope.now params.now is_static x.now) }
{
    match x {
        JType::Primitive(..) => Ok(()),
        JType::Class(name) => push_name(alloc, out, world, unit, scope, params, is_static, name),
        JType::Applied(name, _, args, ..) => {
            push_name(alloc, out, world, unit, scope, params, is_static, name)?;
            push_types(
                alloc,
                out,
                world,
                unit,
                scope,
                params,
                is_static,
                args.as_slice(),
            )
        }
        JType::Array(element, _) => {
            push_type(
                alloc,
                out,
                world,
                unit,
                scope,
                params,
                is_static,
                element.get(),
            )
        }
    }
}

#[cycle(types)]
fn push_types(
    alloc: Global,
    out: &mut Items<NameFault>,
    world: &World,
    unit: usize,
    scope: &FileScope,
    params: &Option<JTypeParams>,
    is_static: bool,
    xs: &[JType],
) -> Result<(), NoMemory>
    ensures { IfOk result (λ u. out.new ≡ out.old ++ s.types_faults world.now unit scope.now params.now is_static xs.now) }
{
    for x in xs {
        push_type(alloc, out, world, unit, scope, params, is_static, x)?;
    }
    Ok(())
}

pub(crate) fn push_bound(
    alloc: Global,
    out: &mut Items<NameFault>,
    world: &World,
    unit: usize,
    scope: &FileScope,
    params: &Option<JTypeParams>,
    is_static: bool,
    bound: &Option<JBound>,
) -> Result<(), NoMemory>
    ensures { IfOk result (λ u. out.new ≡ out.old ++ s.bound_faults world.now unit scope.now params.now is_static bound.now) }
{
    match bound {
        None => Ok(()),
        Some(bound) => push_type(
            alloc,
            out,
            world,
            unit,
            scope,
            params,
            is_static,
            &bound.kind,
        ),
    }
}

pub(crate) fn push_list(
    alloc: Global,
    out: &mut Items<NameFault>,
    world: &World,
    unit: usize,
    scope: &FileScope,
    params: &Option<JTypeParams>,
    is_static: bool,
    list: &Option<JTypeList>,
) -> Result<(), NoMemory>
    ensures { IfOk result (λ u. out.new ≡ out.old ++ s.list_faults world.now unit scope.now params.now is_static list.now) }
{
    match list {
        None => Ok(()),
        Some(list) => {
            push_types(
                alloc,
                out,
                world,
                unit,
                scope,
                params,
                is_static,
                list.items.as_slice(),
            )
        }
    }
}

/// The bounds of type parameters (JLS 4.4).
pub(crate) fn push_bounds(
    alloc: Global,
    out: &mut Items<NameFault>,
    world: &World,
    unit: usize,
    scope: &FileScope,
    params: &Option<JTypeParams>,
    is_static: bool,
    xs: &[JTypeParam],
) -> Result<(), NoMemory>
    ensures { IfOk result (λ u. out.new ≡ out.old ++ s.bounds_faults world.now unit scope.now params.now is_static xs.now) }
{
    for x in xs {
        push_bound(alloc, out, world, unit, scope, params, is_static, &x.bound)?;
    }
    Ok(())
}
