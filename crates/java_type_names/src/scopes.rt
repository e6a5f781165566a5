// What a simple name of a class means in a file.
ghost use Rattle.std.specs.Prelude.{◌≡◌};
ghost use Rattle.java_type_names.specs.Scopes as s;

use crate::classes::{Meant, seen_at};
use j2k_base::{Name, Text};
use java_classes::Classes;
use sqlite_items::Items;

/// A class that is imported by its name.
#[derive(Drop)]
pub struct Single {
    pub name: Name,
    pub class: Meant,
}

/// What is in scope in a whole file: its package, the classes that it imports by their names, and the packages that it
/// imports on demand (JLS 6.3, 7.5).
#[derive(Drop)]
pub struct FileScope {
    pub home: Text,
    pub singles: Items<Single>,
    pub demands: Items<Text>,
}

/// The classes that a simple name means.
#[derive(Clone, Copy, PartialEq, Eq)]
pub enum Found {
    Nothing,
    One(Meant),
    Several,
}

pub(crate) fn is_same(a: Meant, b: Meant) -> bool
    ensures { result ≡ s.is_same a b }
{
    match (a, b) {
        (Meant::Library(x), Meant::Library(y)) => x == y,
        (Meant::Project(x), Meant::Project(y)) => x == y,
        _ => false,
    }
}

fn met(found: Found, class: Option<Meant>) -> Found
    ensures { result ≡ s.met found class }
{
    match (found, class) {
        (found, None) => found,
        (Found::Nothing, Some(class)) => Found::One(class),
        (Found::One(first), Some(class)) if is_same(first, class) => Found::One(first),
        _ => Found::Several,
    }
}

fn demanded(rows: &Classes, from: &Text, demands: &[Text], name: &Name) -> Found
    ensures { result ≡ s.demanded rows.now from.now name.now demands.now }
{
    let mut found = Found::Nothing;
    for home in demands {
        found = met(found, seen_at(rows, from, home, name));
    }
    found
}

pub(crate) fn imported(singles: &[Single], name: &Name) -> Option<Meant>
    ensures { result ≡ s.single name.now singles.now }
{
    for x in singles {
        if x.name.as_bytes() == name.as_bytes() {
            return Some(x.class);
        }
    }
    None
}

/// A simple name of a class (JLS 6.4.1, 6.5.5.1): what the file imports by this name, else the class of its package,
/// else those of the packages that it imports on demand.
pub fn simple_class(rows: &Classes, scope: &FileScope, name: &Name) -> Found
    ensures { result ≡ s.simple_class rows.now scope.now name.now }
{
    let near = imported(scope.singles.as_slice(), name).or(seen_at(
        rows,
        &scope.home,
        &scope.home,
        name,
    ));
    match near {
        Some(class) => Found::One(class),
        None => demanded(rows, &scope.home, scope.demands.as_slice(), name),
    }
}
