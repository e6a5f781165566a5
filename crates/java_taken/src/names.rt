// Sets of names.
ghost use Rattle.std.specs.Prelude.{◌≡◌, ◌++◌, ◌∷◌, [], not, IfOk, OnErr, if◌then◌else◌};
ghost use Rattle.std.specs.List.{list_any};
ghost use Rattle.std.specs.Str.{bytes_eq};

use indexmap::IndexSet;
use j2k_base::NoMemory;
use std::alloc::Global;
use std::marker::Model;

/// Names in the order in which they were declared, seen by contracts as their list.
#[derive(Drop)]
pub struct Names {
    alloc: Global,
    names: IndexSet<String>,
}

impl Model for Names {
    ghost use Rattle.std.specs.Prelude.{List, ℕ, map, string_bytes};

    ghost Value = { List (List ℕ) };

    ghost view = { λ a. map string_bytes a.names.keys };
}

impl Names {
    pub fn new(alloc: Global) -> Names
        ensures { result ≡ [] }
    {
        Names {
            alloc,
            names: IndexSet::new(alloc),
        }
    }

    pub fn contains(&self, name: &str) -> bool
        ensures { result ≡ list_any (bytes_eq name.now) self.now }
    {
        self.names.contains(name)
    }

    /// Declares a name, and answers whether it wasn't declared yet.
    pub fn declare(&mut self, name: &str) -> Result<bool, NoMemory>
        ensures added { IfOk result (λ added. added ≡ not (list_any (bytes_eq name.now) self.old)) }
        ensures names { IfOk result (λ added. self.new ≡ (if added then self.old ++ name.now ∷ [] else self.old)) }
        ensures err { OnErr result (self.new ≡ self.old) }
    {
        let copy = String::from_str(self.alloc, name)?;
        let added = self.names.insert(copy)?;
        Ok(added)
    }
}
