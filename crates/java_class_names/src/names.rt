// The names in the bodies of a class.
ghost use Rattle.std.specs.Prelude.{◌≡◌, ◌++◌, slice_get, IfOk};
ghost use Rattle.std.specs.Option.{option_copied};
ghost use Rattle.java_scopes.specs.Scopes.{faults_of};
ghost use Rattle.java_surroundings.specs.Surroundings.{setting};
ghost use Rattle.java_body_uses.specs.Bodies as bodies;
ghost use Rattle.java_class_names.specs.Names as s;

use crate::places::ClassPlace;
use j2k_base::NoMemory;
use java_body_names::body_faults;
use java_body_uses::{Member, member_uses};
use java_classes::{NameFault, put_if};
use java_member_grammar::{JHome, JTypeHead, JTypeParams};
use java_members::Class;
use java_name_uses::Use;
use java_signatures::signature_faults;
use java_supertypes::Heading;
use java_surroundings::Surroundings;
use java_type_names::{FileScope, World};
use java_unit_grammar::{JMember, JUnit};
use sqlite_items::Items;
use std::alloc::Global;

fn push_body(
    alloc: Global,
    out: &mut Items<NameFault>,
    around: &Surroundings<'_>,
    uses: &[Use],
) -> Result<(), NoMemory>
    ensures { IfOk result (λ u. out.new ≡ out.old ++ faults_of (setting around.now) uses.now) }
{
    let found = body_faults(alloc, around, uses)?;
    out.append(found)?;
    Ok(())
}

/// What a member says: the surroundings are those of its class.
fn push_said(
    alloc: Global,
    out: &mut Items<NameFault>,
    class: &Surroundings<'_>,
    member: &Option<Member>,
) -> Result<(), NoMemory>
    ensures { IfOk result (λ u. out.new ≡ out.old ++ s.said_faults class.now.world.now class.now.headings.now class.now.table.now class.now.unit class.now.class class.now.scope.now class.now.params.now member.now) }
{
    match member {
        None => Ok(()),
        Some(Member::Initial(is_static, uses)) => {
            let around = Surroundings {
                is_static: *is_static,
                may_return: false,
                world: class.world,
                scope: class.scope,
                headings: class.headings,
                table: class.table,
                params: class.params,
                unit: class.unit,
                class: class.class,
            };
            push_body(alloc, out, &around, uses.as_slice())
        }
        Some(Member::Called(is_static, uses)) => {
            let around = Surroundings {
                is_static: *is_static,
                may_return: true,
                world: class.world,
                scope: class.scope,
                headings: class.headings,
                table: class.table,
                params: class.params,
                unit: class.unit,
                class: class.class,
            };
            push_body(alloc, out, &around, uses.as_slice())
        }
        Some(Member::Later(at)) => put_if(out, true, class.unit, *at, 0),
    }
}

fn let_go_member(_member: Option<Member>) {}

fn push_member(
    alloc: Global,
    out: &mut Items<NameFault>,
    class: &Surroundings<'_>,
    place: JHome,
    x: &JMember,
) -> Result<(), NoMemory>
    ensures { IfOk result (λ u. out.new ≡ out.old ++ s.said_faults class.now.world.now class.now.headings.now class.now.table.now class.now.unit class.now.class class.now.scope.now class.now.params.now (bodies.member_uses place x.now)) }
{
    let member = member_uses(alloc, place, x)?;
    let said = push_said(alloc, out, class, &member);
    let_go_member(member);
    said
}

fn push_bodies(
    alloc: Global,
    out: &mut Items<NameFault>,
    class: &Surroundings<'_>,
    place: JHome,
    xs: &[JMember],
) -> Result<(), NoMemory>
    ensures { IfOk result (λ u. out.new ≡ out.old ++ s.bodies_faults class.now.world.now class.now.headings.now class.now.table.now class.now.unit class.now.class class.now.scope.now class.now.params.now place xs.now) }
{
    for x in xs {
        push_member(alloc, out, class, place, x)?;
    }
    Ok(())
}

fn push_members(
    alloc: Global,
    out: &mut Items<NameFault>,
    class: &Surroundings<'_>,
    place: JHome,
    xs: &[JMember],
) -> Result<(), NoMemory>
    ensures { IfOk result (λ u. out.new ≡ out.old ++ s.members_faults class.now.world.now class.now.headings.now class.now.table.now class.now.unit class.now.class class.now.scope.now class.now.params.now place xs.now) }
{
    signature_faults(
        alloc,
        out,
        class.world,
        class.unit,
        class.scope,
        class.params,
        xs,
    )?;
    push_bodies(alloc, out, class, place, xs)
}

fn push_head(
    alloc: Global,
    out: &mut Items<NameFault>,
    world: &World,
    headings: &[Heading],
    table: &[Class],
    unit: usize,
    class: usize,
    scope: &FileScope,
    head: &JTypeHead,
    xs: &[JMember],
) -> Result<(), NoMemory>
    ensures { IfOk result (λ u. out.new ≡ out.old ++ s.head_faults world.now headings.now table.now unit class scope.now head.now xs.now) }
{
    match head {
        JTypeHead::Class(_, _, _, _, params, ..) => {
            let around = Surroundings {
                world,
                scope,
                headings,
                table,
                params,
                unit,
                class,
                is_static: false,
                may_return: false,
            };
            push_members(alloc, out, &around, JHome::Class, xs)
        }
        JTypeHead::Interface(_, _, _, _, params, _) => {
            let around = Surroundings {
                world,
                scope,
                headings,
                table,
                params,
                unit,
                class,
                is_static: false,
                may_return: false,
            };
            push_members(alloc, out, &around, JHome::Interface, xs)
        }
        JTypeHead::Enum(..) => Ok(()),
    }
}

#[tactic(auto, unfolding(crate::specs::Names::type_faults))]
fn push_type(
    alloc: Global,
    out: &mut Items<NameFault>,
    world: &World,
    headings: &[Heading],
    table: &[Class],
    unit: usize,
    class: usize,
    scope: &FileScope,
    x: &JMember,
) -> Result<(), NoMemory>
    ensures { IfOk result (λ u. out.new ≡ out.old ++ s.type_faults world.now headings.now table.now unit class scope.now x.now) }
{
    match x {
        JMember::Type(head, _, _, _, members, _) => push_head(
            alloc,
            out,
            world,
            headings,
            table,
            unit,
            class,
            scope,
            head,
            members.as_slice(),
        ),
        _ => Ok(()),
    }
}

fn push_scoped(
    alloc: Global,
    out: &mut Items<NameFault>,
    world: &World,
    headings: &[Heading],
    table: &[Class],
    unit: usize,
    class: usize,
    scope: Option<&FileScope>,
    x: Option<&JMember>,
) -> Result<(), NoMemory>
    ensures { IfOk result (λ u. out.new ≡ out.old ++ s.scoped_faults world.now headings.now table.now unit class (option_copied scope.entry) (option_copied x.entry)) }
{
    match scope {
        None => Ok(()),
        Some(scope) => match x {
            None => Ok(()),
            Some(x) => push_type(alloc, out, world, headings, table, unit, class, scope, x),
        },
    }
}

fn types_of(unit: Option<&JUnit>) -> &[JMember]
    ensures { result.now ≡ s.types_of (option_copied unit.entry) }
{
    match unit {
        None => &[],
        Some(unit) => unit.types.as_slice(),
    }
}

fn types_at(units: &[JUnit], number: usize) -> &[JMember]
    ensures { result.now ≡ s.types_of (slice_get units.entry.now number) }
{
    types_of(units.get(number))
}

fn push_place(
    alloc: Global,
    out: &mut Items<NameFault>,
    world: &World,
    scopes: &[FileScope],
    headings: &[Heading],
    table: &[Class],
    units: &[JUnit],
    class: usize,
    place: ClassPlace,
) -> Result<(), NoMemory>
    ensures { IfOk result (λ u. out.new ≡ out.old ++ s.place_faults world.now scopes.now headings.now table.now units.now class place) }
{
    let x = types_at(units, place.unit).get(place.top);
    let scope = scopes.get(place.unit);
    push_scoped(
        alloc, out, world, headings, table, place.unit, class, scope, x,
    )
}

/// The faults of the names in the bodies of classes, and of methods and constructors of one signature (N0 to N5). The scopes are
/// those of the files, the headings those of the project's classes, the table that of all classes, the places where the project's
/// classes stand.
pub fn class_faults(
    alloc: Global,
    out: &mut Items<NameFault>,
    world: &World,
    scopes: &[FileScope],
    headings: &[Heading],
    table: &[Class],
    units: &[JUnit],
    places: &[ClassPlace],
) -> Result<(), NoMemory>
    ensures { IfOk result (λ u. out.new ≡ out.old ++ s.class_faults world.now scopes.now headings.now table.now units.now places.now) }
{
    for (class, place) in places.iter().enumerate() {
        push_place(
            alloc, out, world, scopes, headings, table, units, class, *place,
        )?;
    }
    Ok(())
}
