// The imports of a file.
ghost use Rattle.std.specs.Prelude.{◌≡◌, ◌++◌, ◌∷◌, [], IfOk};
ghost use Rattle.java_type_names.specs.Imports as s;
ghost use Rattle.java_classes.specs.Classes as c;

use crate::classes::{Meant, World};
use crate::places::{Place, next_part, package_or_lost};
use crate::scopes::{FileScope, Single, imported, is_same};
use j2k_base::{Name, NoMemory, Text};
use java_classes::{Classes, NameFault, dotted, package_name, put_if};
use java_member_grammar::JImport;
use java_tree::{JDotted, JQualified, Position};
use java_unit_grammar::JUnit;
use sqlite_items::Items;
use std::alloc::Global;

/// What the rest of a name means, of which the text before means a place.
pub fn walked(
    alloc: Global,
    world: &World,
    from: &Text,
    text: &mut Text,
    place: Place,
    xs: &[JDotted],
) -> Result<Place, NoMemory>
    ensures { IfOk result (λ found. found ≡ s.walked world.now from.now text.old place xs.now) }
{
    let mut place = place;
    for x in xs {
        place = next_part(alloc, world, from, text, place, &x.name, x.at)?;
        text.push_str(".")?;
        text.push_str(x.name.as_str())?;
    }
    Ok(place)
}

/// What the name of an import means (JLS 6.7): it begins with a package.
fn import_place(
    alloc: Global,
    world: &World,
    from: &Text,
    x: &JQualified,
) -> Result<Place, NoMemory>
    ensures { IfOk result (λ found. found ≡ s.import_place world.now from.now x.now) }
{
    let mut text = Text::from_str(alloc, x.name.as_str())?;
    let first = package_or_lost(alloc, world, &text, x.at)?;
    walked(alloc, world, from, &mut text, first, x.rest.as_slice())
}

/// Whether another class is imported or declared in the file by the name.
fn is_other(known: Option<Meant>, class: Meant) -> bool
    ensures { result ≡ s.is_other known class }
{
    match known {
        None => false,
        Some(known) => !is_same(known, class),
    }
}

fn of_project(number: Option<usize>) -> Option<Meant>
    ensures { result ≡ s.of_project number }
{
    match number {
        None => None,
        Some(number) => Some(Meant::Project(number)),
    }
}

/// The first class of a file by its name.
fn own_class(rows: &Classes, unit: usize, name: &Name) -> Option<Meant>
    ensures { result ≡ s.own_class rows.now unit name.now }
{
    of_project(rows.in_file(unit, name.as_str()))
}

fn last_from<'a>(name: &'a Name, at: Position, xs: &'a [JDotted]) -> (&'a Name, Position)
    ensures { (result.0.now, result.1) ≡ s.last_from name.entry.now at xs.entry.now }
{
    match xs {
        [] => (name, at),
        [x, more @ ..] => last_from(&x.name, x.at, more),
    }
}

/// The last identifier of a name.
fn last<'a>(x: &'a JQualified) -> (&'a Name, Position)
    ensures { (result.0.now, result.1) ≡ s.last x.entry.now }
{
    last_from(&x.name, x.at, x.rest.as_slice())
}

fn add_single(
    alloc: Global,
    scope: &mut FileScope,
    name: &Name,
    class: Meant,
) -> Result<(), NoMemory>
    ensures { IfOk result (λ u. scope.new ≡ s.with_single scope.old name.now class) }
{
    let name = Name::from_str(alloc, name.as_str())?;
    scope.singles.push(Single { name, class })?;
    Ok(())
}

fn add_demand(alloc: Global, scope: &mut FileScope, name: &JQualified) -> Result<(), NoMemory>
    ensures { IfOk result (λ u. scope.new ≡ s.with_demand scope.old (c.dotted name.now)) }
{
    scope.demands.push(dotted(alloc, name)?)?;
    Ok(())
}

/// The import of a class by its name (JLS 7.5.1).
fn import_single(
    alloc: Global,
    world: &World,
    unit: usize,
    scope: &mut FileScope,
    out: &mut Items<NameFault>,
    x: &JQualified,
    place: Place,
) -> Result<(), NoMemory>
    ensures scope { IfOk result (λ u. scope.new ≡ s.single_scope scope.old (s.last x.now).0 place) }
    ensures faults { IfOk result (λ u. out.new ≡ out.old ++ s.single_faults world.now unit scope.old (s.last x.now).0 (s.last x.now).1 place) }
{
    let (name, at) = last(x);
    match place {
        Place::Class(class) => {
            let is_twice = is_other(imported(scope.singles.as_slice(), name), class)
                || is_other(own_class(&world.rows, unit, name), class);
            put_if(out, is_twice, unit, at, 2)?;
            add_single(alloc, scope, name, class)
        }
        Place::Package => put_if(out, true, unit, at, 1),
        Place::Lost(lost) => put_if(out, true, unit, lost, 1),
        Place::Ambiguous(lost) => put_if(out, true, unit, lost, 4),
    }
}

/// The import of all classes of a package (JLS 7.5.2).
fn import_demand(
    alloc: Global,
    unit: usize,
    scope: &mut FileScope,
    out: &mut Items<NameFault>,
    x: &JQualified,
    place: Place,
) -> Result<(), NoMemory>
    ensures scope { IfOk result (λ u. scope.new ≡ s.demand_scope scope.old (c.dotted x.now) place) }
    ensures faults { IfOk result (λ u. out.new ≡ out.old ++ s.demand_faults unit place) }
{
    match place {
        Place::Package => add_demand(alloc, scope, x),
        Place::Class(_) => Ok(()),
        Place::Lost(lost) => put_if(out, true, unit, lost, 1),
        Place::Ambiguous(lost) => put_if(out, true, unit, lost, 4),
    }
}

fn import(
    alloc: Global,
    world: &World,
    unit: usize,
    scope: &mut FileScope,
    out: &mut Items<NameFault>,
    x: &JImport,
) -> Result<(), NoMemory>
    ensures scope { IfOk result (λ u. scope.new ≡ s.import_scope world.now unit scope.old x.now.star x.now.name) }
    ensures faults { IfOk result (λ u. out.new ≡ out.old ++ s.import_faults world.now unit scope.old x.now.star x.now.name) }
{
    let place = import_place(alloc, world, &scope.home, &x.name)?;
    match x.star {
        None => import_single(alloc, world, unit, scope, out, &x.name, place),
        Some(_) => import_demand(alloc, unit, scope, out, &x.name, place),
    }
}

fn first_scope(alloc: Global, x: &JUnit) -> Result<FileScope, NoMemory>
    ensures { IfOk result (λ scope. scope ≡ s.first_scope x.now) }
{
    let mut demands = Items::new(alloc);
    demands.push(Text::from_str(alloc, "java.lang")?)?;
    let home = package_name(alloc, &x.package)?;
    Ok(FileScope {
        home,
        singles: Items::new(alloc),
        demands,
    })
}

/// What a file imports, and the faults of its imports (N1, N2, N4).
pub fn file_scope(
    alloc: Global,
    world: &World,
    unit: usize,
    out: &mut Items<NameFault>,
    x: &JUnit,
) -> Result<FileScope, NoMemory>
    ensures scope { IfOk result (λ scope. scope ≡ s.file_scope world.now unit x.now) }
    ensures faults { IfOk result (λ u. out.new ≡ out.old ++ s.file_faults world.now unit x.now) }
{
    let mut scope = first_scope(alloc, x)?;
    for import_line in x.imports.as_slice() {
        import(alloc, world, unit, &mut scope, out, import_line)?;
    }
    Ok(scope)
}
