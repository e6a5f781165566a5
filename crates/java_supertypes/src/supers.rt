// The class that a supertype names.
ghost use Rattle.std.specs.Prelude.{◌≡◌, IfOk};
ghost use Rattle.java_supertypes.specs.Supertypes as s;

use j2k_base::{Name, NoMemory, Text};
use java_member_grammar::{JTypeParam, JTypeParams};
use java_tree::{JQualified, JType};
use java_type_names::{FileScope, Meant, Place, World, first_type, walked};
use std::alloc::Global;

/// Whether one of the type parameters bears the name.
pub fn has_parameter(xs: &[JTypeParam], name: &Name) -> bool
    ensures { result ≡ s.has_parameter name.now xs.now }
{
    xs.iter().any(|x| x.name.as_bytes() == name.as_bytes())
}

/// Whether one of the type parameters, where there are any, bears the name.
pub fn is_parameter(params: &Option<JTypeParams>, name: &Name) -> bool
    ensures { result ≡ s.is_parameter name.now params.now }
{
    match params {
        None => false,
        Some(params) => has_parameter(params.items.as_slice(), name),
    }
}

/// What the name of a type means that doesn't begin with a type parameter (JLS 6.5.5).
pub fn place_of(
    alloc: Global,
    world: &World,
    scope: &FileScope,
    x: &JQualified,
) -> Result<Place, NoMemory>
    ensures { IfOk result (λ place. place ≡ s.place_of world.now scope.now x.now) }
{
    let mut text = Text::from_str(alloc, x.name.as_str())?;
    let first = first_type(alloc, world, scope, &x.name, x.at)?;
    walked(
        alloc,
        world,
        &scope.home,
        &mut text,
        first,
        x.rest.as_slice(),
    )
}

fn class_at(place: Place) -> Option<Meant>
    ensures { result ≡ s.class_at place }
{
    match place {
        Place::Class(class) => Some(class),
        _ => None,
    }
}

fn class_named(
    alloc: Global,
    world: &World,
    scope: &FileScope,
    params: &Option<JTypeParams>,
    x: &JQualified,
) -> Result<Option<Meant>, NoMemory>
    ensures { IfOk result (λ class. class ≡ s.class_named world.now scope.now params.now x.now) }
{
    if is_parameter(params, &x.name) {
        return Ok(None);
    }
    let place = place_of(alloc, world, scope, x)?;
    Ok(class_at(place))
}

/// The class or interface that a supertype names, where it names one (JLS 8.1.4, 8.1.5, 9.1.3).
#[tactic(auto, unfolding(crate::specs::Supertypes::super_class))]
pub fn super_class(
    alloc: Global,
    world: &World,
    scope: &FileScope,
    params: &Option<JTypeParams>,
    x: &JType,
) -> Result<Option<Meant>, NoMemory>
    ensures { IfOk result (λ class. class ≡ s.super_class world.now scope.now params.now x.now) }
{
    match x {
        JType::Class(name) => class_named(alloc, world, scope, params, name),
        JType::Applied(name, ..) => class_named(alloc, world, scope, params, name),
        _ => Ok(None),
    }
}
