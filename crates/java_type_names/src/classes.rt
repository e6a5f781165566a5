// A class by its package and its name.
ghost use Rattle.std.specs.Prelude.{◌≡◌, Some};
ghost use Rattle.std.specs.Option.{option_copied};
ghost use Rattle.java_lib.specs.Classes.{class_of};
ghost use Rattle.java_type_names.specs.Classes as s;

use j2k_base::{Name, Text};
use java_classes::{ClassRow, Classes, Packages};
use java_lib::{ClassRow as LibraryRow, simple_row};

/// A class or interface that a name means: of the library by the number of its row, or of the project by its number.
#[derive(Clone, Copy, PartialEq, Eq)]
pub enum Meant {
    Library(u8),
    Project(usize),
}

/// The classes and the packages of a project, and the packages of the library.
#[derive(Drop)]
pub struct World {
    pub rows: Classes,
    pub packages: Packages,
}

fn seen(row: &ClassRow, from: &Text, number: usize) -> Option<Meant>
    ensures { result ≡ s.seen row.now from.now number }
{
    if row.is_public || row.home.as_bytes() == from.as_bytes() {
        Some(Meant::Project(number))
    } else {
        None
    }
}

fn seen_row(row: Option<&ClassRow>, from: &Text, number: usize) -> Option<Meant>
    ensures { result ≡ s.seen_row (option_copied row.entry) from.now number }
{
    match row {
        None => None,
        Some(row) => seen(row, from, number),
    }
}

fn seen_first(rows: &[ClassRow], from: &Text, number: Option<usize>) -> Option<Meant>
    ensures { result ≡ s.seen_first rows.now from.now number }
{
    match number {
        None => None,
        Some(number) => seen_row(rows.get(number), from, number),
    }
}

/// The first class of the project in a package by its name, where it may be seen from a package (JLS 6.6.1).
fn project_class(rows: &Classes, from: &Text, home: &Text, name: &Name) -> Option<Meant>
    ensures { result ≡ s.project_class rows.now from.now home.now name.now }
{
    seen_first(rows.as_slice(), from, rows.in_package(home, name.as_str()))
}

fn library_row(home: &Text, row: &LibraryRow) -> Option<Meant>
    ensures { result ≡ s.library_by home.now (Some (class_of row.now)) }
{
    if row.package.as_bytes() == home.as_bytes() {
        Some(Meant::Library(row.number))
    } else {
        None
    }
}

fn library_class(home: &Text, name: &Name) -> Option<Meant>
    ensures { result ≡ s.library_class home.now name.now }
{
    match simple_row(name.as_bytes()) {
        None => None,
        Some(row) => library_row(home, row),
    }
}

/// The class in a package by its name, where it may be seen from a package: a class of the project, else one of the
/// library.
pub fn seen_at(rows: &Classes, from: &Text, home: &Text, name: &Name) -> Option<Meant>
    ensures { result ≡ s.seen_at rows.now from.now home.now name.now }
{
    project_class(rows, from, home, name).or(library_class(home, name))
}
