// Constant tables, whose rows are looked up by their keys.
ghost use Rattle.std.specs.Prelude.{◌≡◌, ◌↔◌, ◌≢◌, IsTrue, IsNone, All, Some};
ghost use Rattle.std.specs.Option.{option_copied};
ghost use Rattle.j2k_base.specs.Keys.{keys_differ, value_beside};

use std::marker::Model;

/// A row of a table: a key and the value beside it.
#[derive(Clone, Copy, Debug)]
pub struct Row<V> {
    pub key: &'static str,
    pub value: V,
}

/// Rows whose keys differ, seen by contracts as the list of the rows.
#[derive(Drop)]
pub struct Table<'a, V> {
    rows: &'a [Row<V>],
}

impl<'a, V> Model for Table<'a, V> {
    ghost use Rattle.std.specs.Prelude.{List, IsTrue};
    ghost use Rattle.j2k_base.specs.declared.tables.Row.{Row};
    ghost use Rattle.j2k_base.specs.Keys.{keys_differ};

    ghost Value = { List (Row V) };

    ghost view = { λ a. a.rows.now };

    ghost invariant = { λ a. IsTrue (keys_differ a.rows.now) };
}

impl<'a, V> Table<'a, V> {
    /// The table of these rows, whose keys have to differ. It takes no memory.
    pub fn new(rows: &'a [Row<V>]) -> Table<'a, V>
        requires { IsTrue (keys_differ rows.now) }
        ensures { result ≡ rows.entry.now }
    {
        Table { rows }
    }

    /// The value beside the key. It takes no memory.
    pub fn get(&self, key: &[u8]) -> Option<&'a V>
        ensures value { option_copied result ≡ value_beside key.now self.now }
        ensures beside { All (λ row. row.key.now ≡ key.now → option_copied result ≡ Some row.value) self.now }
        ensures absent { IsNone result ↔ All (λ row. row.key.now ≢ key.now) self.now }
    {
        first_beside(self.rows, key)
    }
}

// The value of the first row with the key.
fn first_beside<'a, V>(rows: &'a [Row<V>], key: &[u8]) -> Option<&'a V>
    ensures { option_copied result ≡ value_beside key.now rows.entry.now }
{
    rows.iter()
        .find(|row| row.key.as_bytes() == key)
        .map(|row| &row.value)
}
