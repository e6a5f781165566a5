// What classes declare.
ghost use Rattle.std.specs.Prelude.{◌≡◌, IfOk};
ghost use Rattle.std.specs.List.{list_any};
ghost use Rattle.std.specs.Option.{option_copied};
ghost use Rattle.java_tables.specs.Names.{numbers_of};
ghost use Rattle.java_members.specs.Lists as l;
ghost use Rattle.java_members.specs.Members as s;
ghost use Rattle.java_members.specs.Numbers as n;

use j2k_base::{Name, NoMemory, Text};
use java_tables::{Groups, NamedRow, group};
use sqlite_items::Items;
use std::alloc::Global;
use std::marker::Model;

/// From where a member may be named, by its modifiers (JLS 6.6.1).
#[derive(Clone, Copy, PartialEq, Eq)]
pub enum Access {
    Public,
    Protected,
    Package,
    Private,
}

/// A field or a method of a class.
#[derive(Drop)]
pub struct Member {
    pub name: Name,
    pub access: Access,
    pub is_static: bool,
}

/// The fields or the methods that a class declares, seen by contracts as their list in the order of the text. They are found by
/// their names in constant time.
#[derive(Drop)]
pub struct Declared {
    members: Items<Member>,
    by_name: Groups,
}

impl Model for Declared {
    ghost use Rattle.std.specs.Prelude.{◌≡◌, ℕ, List};
    ghost use Rattle.java_members.specs.Numbers.{numbered};
    ghost use Rattle.java_members.specs.declared.classes.Member.{Member};
    ghost use Rattle.java_tables.specs.Names.{grouped, numbers_of};

    ghost Value = { List Member };

    ghost view = { λ a. a.members };

    ghost invariant = { λ a. (name : List ℕ) → grouped a.by_name name ≡ numbers_of name (numbered 0 a.members) };
}

fn numbered(alloc: Global, members: &[Member]) -> Result<Vec<NamedRow>, NoMemory>
    ensures { IfOk result (λ rows. rows.items ≡ n.numbered 0 members.now) }
{
    let mut out = Vec::new(alloc);
    for (number, member) in members.iter().enumerate() {
        let name = Name::from_str(alloc, member.name.as_str())?;
        out.push(NamedRow { name, number })?;
    }
    Ok(out)
}

fn is_nil(numbers: &[usize]) -> bool
    ensures { result ≡ l.is_nil numbers.now }
{
    match numbers {
        [] => true,
        _ => false,
    }
}

impl Declared {
    /// The members of a class.
    pub fn new(alloc: Global, members: Items<Member>) -> Result<Declared, NoMemory>
        ensures { IfOk result (λ declared. declared ≡ members) }
    {
        let rows = numbered(alloc, members.as_slice())?;
        let by_name = group(alloc, rows.as_slice())?;
        Ok(Declared { members, by_name })
    }

    /// The numbers of the members of a name.
    pub(crate) fn numbers(&self, name: &str) -> &[usize]
        ensures { result.now ≡ numbers_of name.now (n.numbered 0 self.now) }
    {
        self.by_name.named(name)
    }

    pub(crate) fn as_slice(&self) -> &[Member]
        ensures { result.now ≡ self.now }
    {
        self.members.as_slice()
    }

    /// Whether there is a member of the name.
    pub(crate) fn has(&self, name: &str) -> bool
        ensures { result ≡ list_any (s.has_name name.now) self.now }
    {
        !is_nil(self.numbers(name))
    }
}

/// A class or an interface of a table, of the project or the library.
#[derive(Drop)]
pub struct Class {
    /// Its package.
    pub home: Text,
    pub is_interface: bool,
    /// The numbers in the table of what stands directly above it.
    pub above: Items<usize>,
    pub fields: Declared,
    pub methods: Declared,
}

/// What is looked for.
#[derive(Clone, Copy, PartialEq, Eq)]
pub enum Sort {
    Field,
    Method,
}
