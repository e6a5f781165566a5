// Names and what they mean.
ghost use Rattle.std.specs.Prelude.{◌≡◌, ◌++◌, ◌∷◌, [], None, not, length, take, IfOk, OnOk, is_some, if◌then◌else◌};
ghost use Rattle.std.specs.Option.{option_copied};
ghost use Rattle.java_tables.specs.Names as s;

use indexmap::IndexMap;
use j2k_base::NoMemory;
use std::alloc::Global;
use std::marker::Model;

/// Names and what they mean, seen by contracts as the list of the rows, the oldest first: classes by their names, or the
/// locals in scope. No two rows have one name.
#[derive(Drop)]
pub struct NameMap<V> {
    alloc: Global,
    rows: IndexMap<String, V>,
}

impl<V> Model for NameMap<V> {
    ghost use Rattle.std.specs.Prelude.{List, ℕ, map, string_bytes};

    ghost Value = { List (List ℕ × V) };

    ghost view = { λ a. map (λ e. (string_bytes e.0, e.1)) a.rows.entries };
}

impl<V: Drop> NameMap<V> {
    /// No rows. It takes no memory.
    pub fn new(alloc: Global) -> NameMap<V>
        ensures { result ≡ [] }
    {
        NameMap {
            alloc,
            rows: IndexMap::new(alloc),
        }
    }

    /// What a name means; None where no row has it.
    pub fn get(&self, name: &str) -> Option<&V>
        ensures { option_copied result ≡ s.declared name.now self.now }
    {
        self.rows.get(name)
    }

    /// How many rows there are.
    pub fn len(&self) -> usize
        ensures { result ≡ length self.now }
    {
        self.rows.len()
    }

    fn append(&mut self, name: &str, value: V) -> Result<(), NoMemory>
        requires { s.declared name.now self.old ≡ None }
        ensures { OnOk result (self.new ≡ self.old ++ (name.now, value) ∷ []) }
    {
        let copy = String::from_str(self.alloc, name)?;
        self.rows.insert(copy, value)?;
        Ok(())
    }

    /// A new row, and whether no row had its name: where one has it nothing is changed. After want of memory nothing is said of
    /// the rows.
    pub fn declare(&mut self, name: &str, value: V) -> Result<bool, NoMemory>
        ensures added { IfOk result (λ added. added ≡ not (is_some (s.declared name.now self.old))) }
        ensures rows { IfOk result (λ added. self.new ≡ (if added then self.old ++ (name.now, value) ∷ [] else self.old)) }
    {
        if self.get(name).is_some() {
            return Ok(false);
        }
        self.append(name, value)?;
        Ok(true)
    }

    /// The first `outer` rows stay, as at the end of a block.
    pub fn leave(&mut self, outer: usize)
        ensures { self.new ≡ take outer self.old }
    {
        self.rows.truncate(outer);
    }
}
