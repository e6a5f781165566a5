// What the names of a project's classes tell.
ghost use Rattle.std.specs.Prelude.{◌≡◌, ◌++◌, IfOk};
ghost use Rattle.java_names.specs.Binding as s;

use j2k_base::NoMemory;
use java_class_names::{ClassPlace, class_places};
use java_classes::{Classes, NameFault, class_rows, declared_packages};
use java_member_tables::class_table;
use java_members::Class;
use java_supertypes::{Heading, headings};
use java_type_names::{FileScope, World, file_scope};
use java_unit_grammar::JUnit;
use sqlite_items::Items;
use std::alloc::Global;

/// The classes and packages of a project, the scopes of its files, the headings of its classes, the table of all classes (those of the
/// project by their numbers, and behind them those of the library), and where the project's classes stand.
#[derive(Drop)]
pub struct Facts {
    pub world: World,
    pub scopes: Items<FileScope>,
    pub headings: Items<Heading>,
    pub table: Items<Class>,
    pub places: Items<ClassPlace>,
}

fn world(alloc: Global, units: &[JUnit]) -> Result<World, NoMemory>
    ensures { IfOk result (λ world. world ≡ s.world units.now) }
{
    let rows = Classes::new(alloc, class_rows(alloc, units)?)?;
    let packages = declared_packages(alloc, units)?;
    Ok(World { rows, packages })
}

/// The scopes of the files, and the faults of their imports.
fn scopes(
    alloc: Global,
    out: &mut Items<NameFault>,
    world: &World,
    units: &[JUnit],
) -> Result<Items<FileScope>, NoMemory>
    ensures scopes { IfOk result (λ scopes. scopes ≡ s.scopes_from world.now 0 units.now) }
    ensures faults { IfOk result (λ u. out.new ≡ out.old ++ s.import_faults world.now 0 units.now) }
{
    let mut scopes = Items::new(alloc);
    for (number, unit) in units.iter().enumerate() {
        scopes.push(file_scope(alloc, world, number, out, unit)?)?;
    }
    Ok(scopes)
}

fn built(
    alloc: Global,
    world: World,
    scopes: Items<FileScope>,
    units: &[JUnit],
) -> Result<Facts, NoMemory>
    requires world { world ≡ s.world units.now }
    requires scopes { scopes ≡ s.scopes units.now }
    ensures { IfOk result (λ facts. facts ≡ s.facts units.now) }
{
    let headings = headings(alloc, &world, scopes.as_slice(), units)?;
    let table = class_table(alloc, headings.as_slice(), units)?;
    let places = class_places(alloc, units)?;
    Ok(Facts {
        world,
        scopes,
        headings,
        table,
        places,
    })
}

/// What the names of a project's classes tell, and the faults of its imports.
pub(crate) fn facts_of(
    alloc: Global,
    out: &mut Items<NameFault>,
    units: &[JUnit],
) -> Result<Facts, NoMemory>
    ensures facts { IfOk result (λ facts. facts ≡ s.facts units.now) }
    ensures faults { IfOk result (λ u. out.new ≡ out.old ++ s.import_faults (s.world units.now) 0 units.now) }
{
    let world = world(alloc, units)?;
    let scopes = scopes(alloc, out, &world, units)?;
    built(alloc, world, scopes, units)
}
