// The classes of a project, in the order of their declarations.
ghost use Rattle.std.specs.Prelude.{◌≡◌, ◌++◌, IfOk};
ghost use Rattle.java_classes.specs.Classes as s;

use j2k_base::{Name, NoMemory, Text};
use java_member_grammar::{JModifier, JPackage, JTypeHead, ModifierKind};
use java_tree::{JDotted, JQualified, Position};
use java_unit_grammar::{JMember, JUnit};
use sqlite_items::Items;
use std::alloc::Global;

/// A class, interface or enum that stands at the top of a file (JLS 7.6).
#[derive(Drop)]
pub struct ClassRow {
    /// The number of its file.
    pub unit: usize,
    /// The package of its file, with dots; the unnamed package has an empty name (JLS 7.4).
    pub home: Text,
    pub name: Name,
    pub at: Position,
    pub is_public: bool,
    /// Whether the file bears its name.
    pub has_file: bool,
}

fn push_parts(text: &mut Text, xs: &[JDotted]) -> Result<(), NoMemory>
    ensures { IfOk result (λ u. text.new ≡ text.old ++ s.behind xs.now) }
{
    for x in xs {
        text.push_str(".")?;
        text.push_str(x.name.as_str())?;
    }
    Ok(())
}

/// A name with its dots.
pub fn dotted(alloc: Global, x: &JQualified) -> Result<Text, NoMemory>
    ensures { IfOk result (λ name. name ≡ s.dotted x.now) }
{
    let mut text = Text::from_str(alloc, x.name.as_str())?;
    push_parts(&mut text, x.rest.as_slice())?;
    Ok(text)
}

/// The name of the package of a file, with dots (JLS 7.4).
pub fn package_name(alloc: Global, x: &Option<JPackage>) -> Result<Text, NoMemory>
    ensures { IfOk result (λ name. name ≡ s.package_name x.now) }
{
    match x {
        None => Ok(Text::new(alloc)),
        Some(x) => dotted(alloc, &x.name),
    }
}

fn is_public(mods: &[JModifier]) -> bool
    ensures { result ≡ s.has_public mods.now }
{
    mods.iter().any(|x| x.kind == ModifierKind::Public)
}

/// Whether the path ends in the name and `.java`, and nothing or a slash stands before that.
fn is_file_of(alloc: Global, path: &Text, name: &Name) -> Result<bool, NoMemory>
    ensures { IfOk result (λ is. is ≡ s.is_file_of path.now name.now) }
{
    let mut file = Text::from_str(alloc, name.as_str())?;
    file.push_str(".java")?;
    let mut end = Text::from_str(alloc, "/")?;
    end.push_str(file.as_str())?;
    Ok(path.as_bytes() == file.as_bytes() || path.as_bytes().ends_with(end.as_bytes()))
}

fn class_row(
    alloc: Global,
    number: usize,
    path: &Text,
    home: &Text,
    mods: &[JModifier],
    name: &Name,
    at: Position,
) -> Result<ClassRow, NoMemory>
    ensures { IfOk result (λ row. row ≡ s.row number path.now home.now mods.now name.now at) }
{
    let has_file = is_file_of(alloc, path, name)?;
    let home = Text::from_str(alloc, home.as_str())?;
    let name = Name::from_str(alloc, name.as_str())?;
    Ok(ClassRow {
        unit: number,
        home,
        name,
        at,
        is_public: is_public(mods),
        has_file,
    })
}

fn headed(
    alloc: Global,
    number: usize,
    path: &Text,
    home: &Text,
    head: &JTypeHead,
) -> Result<ClassRow, NoMemory>
    ensures { IfOk result (λ row. row ≡ s.headed number path.now home.now head.now) }
{
    match head {
        JTypeHead::Class(mods, _, name, at, ..) => {
            class_row(alloc, number, path, home, mods.as_slice(), name, *at)
        }
        JTypeHead::Interface(mods, _, name, at, ..) => {
            class_row(alloc, number, path, home, mods.as_slice(), name, *at)
        }
        JTypeHead::Enum(mods, _, name, at, _) => {
            class_row(alloc, number, path, home, mods.as_slice(), name, *at)
        }
    }
}

/// A type, or a `;`.
#[tactic(auto, unfolding(crate::specs::Classes::type_rows), using(crate::proofs::Lists::rows))]
fn push_type(
    alloc: Global,
    out: &mut Items<ClassRow>,
    number: usize,
    path: &Text,
    home: &Text,
    x: &JMember,
) -> Result<(), NoMemory>
    ensures { IfOk result (λ u. out.new ≡ out.old ++ s.type_rows number path.now home.now x.now) }
{
    match x {
        JMember::Type(head, ..) => {
            out.push(headed(alloc, number, path, home, head)?)?;
            Ok(())
        }
        _ => Ok(()),
    }
}

fn push_types(
    alloc: Global,
    out: &mut Items<ClassRow>,
    number: usize,
    path: &Text,
    home: &Text,
    xs: &[JMember],
) -> Result<(), NoMemory>
    ensures { IfOk result (λ u. out.new ≡ out.old ++ s.each_rows number path.now home.now xs.now) }
{
    for x in xs {
        push_type(alloc, out, number, path, home, x)?;
    }
    Ok(())
}

fn push_unit(
    alloc: Global,
    out: &mut Items<ClassRow>,
    number: usize,
    x: &JUnit,
) -> Result<(), NoMemory>
    ensures { IfOk result (λ u. out.new ≡ out.old ++ s.unit_rows number x.now) }
{
    let home = package_name(alloc, &x.package)?;
    push_types(alloc, out, number, &x.path, &home, x.types.as_slice())
}

/// The classes of the files: those of the first file first, and those of a file in the order of the text.
pub fn class_rows(alloc: Global, units: &[JUnit]) -> Result<Items<ClassRow>, NoMemory>
    ensures { IfOk result (λ rows. rows ≡ s.class_rows units.now) }
{
    let mut out = Items::new(alloc);
    for (number, unit) in units.iter().enumerate() {
        push_unit(alloc, &mut out, number, unit)?;
    }
    Ok(out)
}
