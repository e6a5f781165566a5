// The heads of classes.
ghost use Rattle.std.specs.Prelude.{◌≡◌, ◌++◌, IfOk, slice_get};
ghost use Rattle.std.specs.Option.{option_copied};
ghost use Rattle.java_head_names.specs.Heads as s;

use crate::bounds::bound_cycles;
use crate::members::{head_at, push_members};
use crate::types::{push_bound, push_bounds, push_fault, push_list};
use j2k_base::NoMemory;
use java_classes::NameFault;
use java_declared_names::{member_faults, parameter_faults};
use java_member_grammar::{JTypeHead, JTypeParams};
use java_type_names::{FileScope, World};
use java_unit_grammar::{JMember, JUnit};
use sqlite_items::Items;
use std::alloc::Global;

fn push_parameters(
    alloc: Global,
    out: &mut Items<NameFault>,
    world: &World,
    unit: usize,
    scope: &FileScope,
    params: &Option<JTypeParams>,
) -> Result<(), NoMemory>
    ensures { IfOk result (λ u. out.new ≡ out.old ++ s.parameters_faults world.now unit scope.now params.now) }
{
    match params {
        None => Ok(()),
        Some(own) => {
            parameter_faults(alloc, out, &world.rows, unit, own.items.as_slice())?;
            bound_cycles(alloc, out, unit, own.items.as_slice())?;
            push_bounds(
                alloc,
                out,
                world,
                unit,
                scope,
                params,
                false,
                own.items.as_slice(),
            )
        }
    }
}

fn push_body(
    alloc: Global,
    out: &mut Items<NameFault>,
    world: &World,
    unit: usize,
    scope: &FileScope,
    params: &Option<JTypeParams>,
    is_interface: bool,
    members: &[JMember],
) -> Result<(), NoMemory>
    ensures { IfOk result (λ u. out.new ≡ out.old ++ s.body_faults world.now unit scope.now params.now is_interface members.now) }
{
    member_faults(alloc, out, &world.rows, unit, members)?;
    push_members(
        alloc,
        out,
        world,
        unit,
        scope,
        params,
        is_interface,
        members,
    )
}

fn push_class(
    alloc: Global,
    out: &mut Items<NameFault>,
    world: &World,
    unit: usize,
    scope: &FileScope,
    head: &JTypeHead,
    members: &[JMember],
) -> Result<(), NoMemory>
    ensures { IfOk result (λ u. out.new ≡ out.old ++ s.class_faults world.now unit scope.now head.now members.now) }
{
    match head {
        JTypeHead::Class(_, _, _, _, params, bound, list) => {
            push_parameters(alloc, out, world, unit, scope, params)?;
            push_bound(alloc, out, world, unit, scope, params, false, bound)?;
            push_list(alloc, out, world, unit, scope, params, false, list)?;
            push_body(alloc, out, world, unit, scope, params, false, members)
        }
        JTypeHead::Interface(_, _, _, _, params, list) => {
            push_parameters(alloc, out, world, unit, scope, params)?;
            push_list(alloc, out, world, unit, scope, params, false, list)?;
            push_body(alloc, out, world, unit, scope, params, true, members)
        }
        JTypeHead::Enum(..) => push_fault(out, unit, head_at(head), 0),
    }
}

/// A type, or a `;`.
#[tactic(auto, unfolding(crate::specs::Heads::top_faults))]
fn push_top(
    alloc: Global,
    out: &mut Items<NameFault>,
    world: &World,
    unit: usize,
    scope: &FileScope,
    x: &JMember,
) -> Result<(), NoMemory>
    ensures { IfOk result (λ u. out.new ≡ out.old ++ s.top_faults world.now unit scope.now x.now) }
{
    match x {
        JMember::Type(head, _, _, _, members, _) => {
            push_class(alloc, out, world, unit, scope, head, members.as_slice())
        }
        _ => Ok(()),
    }
}

fn push_tops(
    alloc: Global,
    out: &mut Items<NameFault>,
    world: &World,
    unit: usize,
    scope: &FileScope,
    xs: &[JMember],
) -> Result<(), NoMemory>
    ensures { IfOk result (λ u. out.new ≡ out.old ++ s.tops_faults world.now unit scope.now xs.now) }
{
    for x in xs {
        push_top(alloc, out, world, unit, scope, x)?;
    }
    Ok(())
}

fn push_unit(
    alloc: Global,
    out: &mut Items<NameFault>,
    world: &World,
    unit: usize,
    scope: Option<&FileScope>,
    x: &JUnit,
) -> Result<(), NoMemory>
    ensures { IfOk result (λ u. out.new ≡ out.old ++ s.unit_faults world.now unit (option_copied scope.entry) x.now) }
{
    match scope {
        None => Ok(()),
        Some(scope) => push_tops(alloc, out, world, unit, scope, x.types.as_slice()),
    }
}

fn push_at(
    alloc: Global,
    out: &mut Items<NameFault>,
    world: &World,
    scopes: &[FileScope],
    unit: usize,
    x: &JUnit,
) -> Result<(), NoMemory>
    ensures { IfOk result (λ u. out.new ≡ out.old ++ s.unit_faults world.now unit (slice_get scopes.now unit) x.now) }
{
    push_unit(alloc, out, world, unit, scopes.get(unit), x)
}

/// The faults of the names in the heads of classes and of members, and the forms of these that aren't built yet (N0 to
/// N5). The scopes are those of the files, in their order.
pub fn head_faults(
    alloc: Global,
    out: &mut Items<NameFault>,
    world: &World,
    scopes: &[FileScope],
    units: &[JUnit],
) -> Result<(), NoMemory>
    ensures { IfOk result (λ u. out.new ≡ out.old ++ s.head_faults world.now scopes.now units.now) }
{
    for (number, unit) in units.iter().enumerate() {
        push_at(alloc, out, world, scopes, number, unit)?;
    }
    Ok(())
}
