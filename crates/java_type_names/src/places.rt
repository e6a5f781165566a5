// Names with dots, resolved from the left.
ghost use Rattle.std.specs.Prelude.{◌≡◌, IfOk};
ghost use Rattle.java_type_names.specs.Places as s;

use crate::classes::{Meant, World, seen_at};
use crate::scopes::{FileScope, Found, simple_class};
use j2k_base::{Name, NoMemory, Text};
use java_classes::is_package;
use java_tree::Position;
use std::alloc::Global;

/// What a name, or its beginning, means.
#[derive(Clone, Copy)]
pub enum Place {
    /// A package, whose name is kept beside.
    Package,
    Class(Meant),
    /// Nothing: the fault stands at this identifier.
    Lost(Position),
    /// Several classes.
    Ambiguous(Position),
}

pub(crate) fn package_or_lost(
    alloc: Global,
    world: &World,
    text: &Text,
    at: Position,
) -> Result<Place, NoMemory>
    ensures { IfOk result (λ place. place ≡ s.package_or_lost world.now text.now at) }
{
    if is_package(alloc, world.packages.as_slice(), text)? {
        Ok(Place::Package)
    } else {
        Ok(Place::Lost(at))
    }
}

/// The first identifier of the name of a type that is no type parameter (JLS 6.5.4.1, 6.5.5.1).
pub fn first_type(
    alloc: Global,
    world: &World,
    scope: &FileScope,
    name: &Name,
    at: Position,
) -> Result<Place, NoMemory>
    ensures { IfOk result (λ place. place ≡ s.first_type world.now scope.now name.now at) }
{
    match simple_class(&world.rows, scope, name) {
        Found::One(class) => Ok(Place::Class(class)),
        Found::Several => Ok(Place::Ambiguous(at)),
        Found::Nothing => {
            let text = Text::from_str(alloc, name.as_str())?;
            package_or_lost(alloc, world, &text, at)
        }
    }
}

/// The package `text`, a dot and the name (JLS 6.5.4.2, 6.5.5.2).
fn in_package(
    alloc: Global,
    world: &World,
    from: &Text,
    text: &Text,
    name: &Name,
    at: Position,
) -> Result<Place, NoMemory>
    ensures { IfOk result (λ place. place ≡ s.in_package world.now from.now text.now name.now at) }
{
    if let Some(class) = seen_at(&world.rows, from, text, name) {
        return Ok(Place::Class(class));
    }
    let mut more = Text::from_str(alloc, text.as_str())?;
    more.push_str(".")?;
    more.push_str(name.as_str())?;
    package_or_lost(alloc, world, &more, at)
}

/// One more identifier of the name of a type, behind a dot: what stands before is `text`. No class has member types.
pub fn next_part(
    alloc: Global,
    world: &World,
    from: &Text,
    text: &Text,
    place: Place,
    name: &Name,
    at: Position,
) -> Result<Place, NoMemory>
    ensures { IfOk result (λ next. next ≡ s.next_part world.now from.now text.now place name.now at) }
{
    match place {
        Place::Package => in_package(alloc, world, from, text, name, at),
        Place::Class(_) => Ok(Place::Lost(at)),
        other => Ok(other),
    }
}
