// The classes of a project by their names.
ghost use Rattle.std.specs.Prelude.{◌≡◌, IfOk};
ghost use Rattle.std.specs.Option.{option_copied};
ghost use Rattle.std.specs.List.{list_any};
ghost use Rattle.java_tables.specs.Names.{numbers_of};
ghost use Rattle.java_classes.specs.Tables as s;
ghost use Rattle.java_classes.specs.Numbers as n;

use crate::rows::ClassRow;
use j2k_base::{Name, NoMemory, Text};
use java_tables::{Groups, NamedRow, group};
use sqlite_items::Items;
use std::alloc::Global;
use std::marker::Model;

/// The classes of a project, seen by contracts as their list: those of the first file first, and those of a file in the order of the
/// text. They are found by their names in constant time.
#[derive(Drop)]
pub struct Classes {
    rows: Items<ClassRow>,
    by_name: Groups,
}

impl Model for Classes {
    ghost use Rattle.std.specs.Prelude.{◌≡◌, ℕ, List};
    ghost use Rattle.java_tables.specs.Names.{grouped, numbers_of};
    ghost use Rattle.java_classes.specs.Numbers.{numbered};
    ghost use Rattle.java_classes.specs.declared.rows.ClassRow.{ClassRow};

    ghost Value = { List ClassRow };

    ghost view = { λ a. a.rows };

    ghost invariant = { λ a. (name : List ℕ) → grouped a.by_name name ≡ numbers_of name (numbered 0 a.rows) };
}

fn numbered(alloc: Global, rows: &[ClassRow]) -> Result<Vec<NamedRow>, NoMemory>
    ensures { IfOk result (λ named. named.items ≡ n.numbered 0 rows.now) }
{
    let mut out = Vec::new(alloc);
    for (number, row) in rows.iter().enumerate() {
        let name = Name::from_str(alloc, row.name.as_str())?;
        out.push(NamedRow { name, number })?;
    }
    Ok(out)
}

fn is_nil(numbers: &[usize]) -> bool
    ensures { result ≡ n.is_nil numbers.now }
{
    match numbers {
        [] => true,
        _ => false,
    }
}

fn is_of_package(row: Option<&ClassRow>, home: &Text) -> bool
    ensures { result ≡ n.is_by (s.is_of_package home.now) (option_copied row.entry) }
{
    match row {
        None => false,
        Some(row) => row.home.as_bytes() == home.as_bytes(),
    }
}

fn is_in_package(rows: &[ClassRow], number: usize, home: &Text) -> bool
    ensures { result ≡ n.is_at (s.is_of_package home.now) rows.now number }
{
    is_of_package(rows.get(number), home)
}

fn is_of_file(row: Option<&ClassRow>, unit: usize) -> bool
    ensures { result ≡ n.is_by (s.is_of_file unit) (option_copied row.entry) }
{
    match row {
        None => false,
        Some(row) => row.unit == unit,
    }
}

fn is_in_file(rows: &[ClassRow], number: usize, unit: usize) -> bool
    ensures { result ≡ n.is_at (s.is_of_file unit) rows.now number }
{
    is_of_file(rows.get(number), unit)
}

fn first_in_package(rows: &[ClassRow], numbers: &[usize], home: &Text) -> Option<usize>
    ensures { result ≡ n.picked (s.is_of_package home.now) rows.now numbers.now }
{
    for number in numbers {
        if is_in_package(rows, *number, home) {
            return Some(*number);
        }
    }
    None
}

fn first_in_file(rows: &[ClassRow], numbers: &[usize], unit: usize) -> Option<usize>
    ensures { result ≡ n.picked (s.is_of_file unit) rows.now numbers.now }
{
    for number in numbers {
        if is_in_file(rows, *number, unit) {
            return Some(*number);
        }
    }
    None
}

impl Classes {
    /// The table of some classes. It takes time in proportion to them.
    pub fn new(alloc: Global, rows: Items<ClassRow>) -> Result<Classes, NoMemory>
        ensures { IfOk result (λ classes. classes ≡ rows) }
    {
        let named = numbered(alloc, rows.as_slice())?;
        let by_name = group(alloc, named.as_slice())?;
        Ok(Classes { rows, by_name })
    }

    pub fn as_slice(&self) -> &[ClassRow]
        ensures { result.now ≡ self.now }
    {
        self.rows.as_slice()
    }

    fn numbers(&self, name: &str) -> &[usize]
        ensures { result.now ≡ numbers_of name.now (n.numbered 0 self.now) }
    {
        self.by_name.named(name)
    }

    /// Whether a class bears the name.
    pub fn has(&self, name: &str) -> bool
        ensures { result ≡ list_any (s.has_name name.now) self.now }
    {
        !is_nil(self.numbers(name))
    }

    /// The number of the first class of a package by its name.
    pub fn in_package(&self, home: &Text, name: &str) -> Option<usize>
        ensures { result ≡ s.first (s.is_in_package home.now name.now) self.now }
    {
        first_in_package(self.as_slice(), self.numbers(name), home)
    }

    /// The number of the first class of a file by its name.
    pub fn in_file(&self, unit: usize, name: &str) -> Option<usize>
        ensures { result ≡ s.first (s.is_in_file unit name.now) self.now }
    {
        first_in_file(self.as_slice(), self.numbers(name), unit)
    }
}
