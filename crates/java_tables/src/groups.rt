// Rows that may share their names.
ghost use Rattle.std.specs.Prelude.{◌≡◌, ℕ, List, IfOk};
ghost use Rattle.java_tables.specs.Names as s;

use j2k_base::{Name, NoMemory};
use std::alloc::Global;
use std::collections::HashMap;

/// A row of a list, by its number, and the name that it has there.
#[derive(Drop)]
pub struct NamedRow {
    pub name: Name,
    pub number: usize,
}

/// The numbers of rows by their names, as the members of a class.
#[derive(Drop)]
pub struct Groups {
    pub by_name: HashMap<String, Vec<usize>>,
}

/// The rows by their names: beside each name the numbers of its rows, in the order of the rows. It takes time in proportion to
/// the rows.
pub fn group(alloc: Global, rows: &[NamedRow]) -> Result<Groups, NoMemory>
    ensures { IfOk result (λ groups. (name : List ℕ) → s.grouped groups name ≡ s.numbers_of name rows.now) }
{
    let mut by_name: HashMap<String, Vec<usize>> = HashMap::new(alloc);
    for row in rows {
        let key = String::from_str(alloc, row.name.as_str())?;
        by_name.entry(key)?.or_default().push(row.number)?;
    }
    Ok(Groups { by_name })
}

impl Groups {
    /// The numbers of the rows of a name, none where no row has it. It takes no memory.
    pub fn named(&self, name: &str) -> &[usize]
        ensures { result.now ≡ s.grouped self.now name.now }
    {
        match self.by_name.get(name) {
            Some(group) => group.as_slice(),
            None => &[],
        }
    }
}
