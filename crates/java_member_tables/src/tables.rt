// The classes of a project and of the library.
ghost use Rattle.std.specs.Prelude.{◌≡◌, ◌<◌, ◌++◌, ◌∷◌, [], map, length, slice_get, IfOk};
ghost use Rattle.std.specs.Option.{option_copied};
ghost use Rattle.java_classes.specs.Classes.{package_name};
ghost use Rattle.java_member_tables.specs.Members as m;
ghost use Rattle.java_member_tables.specs.Tables as s;

use crate::library::push_library;
use crate::members::{push_fields, push_methods};
use j2k_base::{NoMemory, Text};
use java_classes::package_name;
use java_member_grammar::JTypeHead;
use java_members::{Class, Declared};
use java_supertypes::Heading;
use java_type_names::Meant;
use java_unit_grammar::{JMember, JUnit};
use sqlite_items::Items;
use std::alloc::Global;

/// The place of a class in the table of a project of so many classes: those of the project stand first.
pub fn number_of(count: usize, class: Meant) -> usize
    requires { count < 9223372036854775808 }
    ensures { result ≡ s.number_of count class }
{
    match class {
        Meant::Project(number) => number,
        Meant::Library(number) => count + number as usize,
    }
}

fn is_interface(head: &JTypeHead) -> bool
    ensures { result ≡ s.is_interface head.now }
{
    match head {
        JTypeHead::Interface(..) => true,
        _ => false,
    }
}

fn push_above(out: &mut Items<usize>, count: usize, xs: &[Meant]) -> Result<(), NoMemory>
    requires { count < 9223372036854775808 }
    ensures { IfOk result (λ u. out.new ≡ out.old ++ map (s.number_of count) xs.now) }
{
    for x in xs {
        out.push(number_of(count, *x))?;
    }
    Ok(())
}

fn above_in(
    alloc: Global,
    count: usize,
    heading: Option<&Heading>,
) -> Result<Items<usize>, NoMemory>
    requires { count < 9223372036854775808 }
    ensures { IfOk result (λ out. out ≡ map (s.number_of count) (s.above_in (option_copied heading.entry))) }
{
    let mut out = Items::new(alloc);
    if let Some(heading) = heading {
        push_above(&mut out, count, heading.above.as_slice())?;
    }
    Ok(out)
}

fn above_at(alloc: Global, headings: &[Heading], number: usize) -> Result<Items<usize>, NoMemory>
    ensures { IfOk result (λ out. out ≡ map (s.number_of (length headings.now)) (s.above_in (slice_get headings.now number))) }
{
    above_in(alloc, headings.len(), headings.get(number))
}

fn fields_of(alloc: Global, is_interface: bool, xs: &[JMember]) -> Result<Declared, NoMemory>
    ensures { IfOk result (λ out. out ≡ m.fields is_interface xs.now) }
{
    let mut fields = Items::new(alloc);
    push_fields(alloc, &mut fields, is_interface, xs)?;
    Declared::new(alloc, fields)
}

fn methods_of(alloc: Global, is_interface: bool, xs: &[JMember]) -> Result<Declared, NoMemory>
    ensures { IfOk result (λ out. out ≡ m.methods is_interface xs.now) }
{
    let mut methods = Items::new(alloc);
    push_methods(alloc, &mut methods, is_interface, xs)?;
    Declared::new(alloc, methods)
}

fn built(
    alloc: Global,
    home: &Text,
    is_interface: bool,
    above: Items<usize>,
    xs: &[JMember],
) -> Result<Class, NoMemory>
    ensures { IfOk result (λ class. class ≡ record { home = home.now; is_interface = is_interface; above = above; fields = m.fields is_interface xs.now; methods = m.methods is_interface xs.now }) }
{
    let home = Text::from_str(alloc, home.as_str())?;
    let fields = fields_of(alloc, is_interface, xs)?;
    let methods = methods_of(alloc, is_interface, xs)?;
    Ok(Class {
        home,
        is_interface,
        above,
        fields,
        methods,
    })
}

fn class(
    alloc: Global,
    headings: &[Heading],
    number: usize,
    home: &Text,
    is_interface: bool,
    xs: &[JMember],
) -> Result<Class, NoMemory>
    ensures { IfOk result (λ class. class ≡ s.class headings.now number home.now is_interface xs.now) }
{
    let above = above_at(alloc, headings, number)?;
    built(alloc, home, is_interface, above, xs)
}

fn push_class(
    alloc: Global,
    table: &mut Items<Class>,
    headings: &[Heading],
    home: &Text,
    is_interface: bool,
    xs: &[JMember],
) -> Result<(), NoMemory>
    ensures { IfOk result (λ u. table.new ≡ table.old ++ (s.class headings.now (length table.old) home.now is_interface xs.now ∷ [])) }
{
    let number = table.len();
    table.push(class(alloc, headings, number, home, is_interface, xs)?)?;
    Ok(())
}

/// A type, or a `;`.
#[tactic(auto, unfolding(crate::specs::Tables::with_type))]
fn push_type(
    alloc: Global,
    table: &mut Items<Class>,
    headings: &[Heading],
    home: &Text,
    x: &JMember,
) -> Result<(), NoMemory>
    ensures { IfOk result (λ u. table.new ≡ s.with_type headings.now home.now table.old x.now) }
{
    match x {
        JMember::Type(head, _, _, _, members, _) => push_class(
            alloc,
            table,
            headings,
            home,
            is_interface(head),
            members.as_slice(),
        ),
        _ => Ok(()),
    }
}

fn push_types(
    alloc: Global,
    table: &mut Items<Class>,
    headings: &[Heading],
    home: &Text,
    xs: &[JMember],
) -> Result<(), NoMemory>
    ensures { IfOk result (λ u. table.new ≡ s.with_types headings.now home.now table.old xs.now) }
{
    for x in xs {
        push_type(alloc, table, headings, home, x)?;
    }
    Ok(())
}

fn push_unit(
    alloc: Global,
    table: &mut Items<Class>,
    headings: &[Heading],
    x: &JUnit,
) -> Result<(), NoMemory>
    ensures { IfOk result (λ u. table.new ≡ s.with_types headings.now (package_name x.now.package) table.old x.now.types) }
{
    let home = package_name(alloc, &x.package)?;
    push_types(alloc, table, headings, &home, x.types.as_slice())
}

fn push_units(
    alloc: Global,
    table: &mut Items<Class>,
    headings: &[Heading],
    units: &[JUnit],
) -> Result<(), NoMemory>
    ensures { IfOk result (λ u. table.new ≡ s.with_units headings.now table.old units.now) }
{
    for x in units {
        push_unit(alloc, table, headings, x)?;
    }
    Ok(())
}

/// The classes of a project by their numbers, and behind them those of the library, with what each declares. The headings are those
/// of the project's classes.
pub fn class_table(
    alloc: Global,
    headings: &[Heading],
    units: &[JUnit],
) -> Result<Items<Class>, NoMemory>
    ensures { IfOk result (λ table. table ≡ s.class_table headings.now units.now) }
{
    let mut table = Items::new(alloc);
    push_units(alloc, &mut table, headings, units)?;
    push_library(alloc, &mut table, headings.len())?;
    Ok(table)
}
