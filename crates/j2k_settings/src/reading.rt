// Reads the settings.
ghost use Rattle.std.specs.Prelude.{◌≡◌, List, ℕ, IfOk, IfErr, IfSome, IfNone};
ghost use Rattle.toml.specs.View.{items_view, table_view};
ghost use Rattle.j2k_settings.specs.Settings.{array_of, Sets, SetsTable, IsRefusal, bad_settings as bad_settings_by};

use j2k_base::{EntryNames, Fault, NoMemory, Phase, Place, Stop, Text};
use std::alloc::Global;
use toml::{Table, Value};

/// The file of the settings, at the top of a project.
pub const SETTINGS_FILE: &str = "j2k.toml";

/// The one key of the settings.
pub const ENTRIES: &str = "entries";

/// The entries that the bytes of the settings name, in their order; none where they have no key.
///
/// C1 where the bytes are no TOML, have another key, or `entries` isn't an array of strings.
pub fn settings(alloc: Global, bytes: &[u8]) -> Result<EntryNames, Stop>
    ensures read { IfOk result (λ entries. Sets bytes.now entries) }
    ensures refused { IfErr result (IsRefusal bytes.now) }
{
    let table = match toml::table_from_slice(alloc, bytes) {
        Ok(table) => table,
        Err(error) => {
            if error.is_memory() {
                return Err(Stop::Memory);
            }
            return Err(Stop::Fault(bad_settings(alloc)?));
        }
    };
    match entries_of(alloc, &table)? {
        Some(entries) => Ok(entries),
        None => Err(Stop::Fault(bad_settings(alloc)?)),
    }
}

/// The entries of a table that is settings.
fn entries_of(alloc: Global, table: &Table) -> Result<Option<EntryNames>, NoMemory>
    ensures found { IfOk result (λ found. IfSome found (λ entries. SetsTable (table_view table.now) entries)) }
    ensures none { IfOk result (λ found. IfNone found ((entries : List (List ℕ)) → SetsTable (table_view table.now) entries → ⊥)) }
{
    if table.len() > 1 {
        return Ok(None);
    }
    let Some((key, value)) = table.first_key_value() else {
        return Ok(Some(EntryNames::new(alloc)));
    };
    if key.as_str() != ENTRIES {
        return Ok(None);
    }
    match value.as_array() {
        Some(array) => strings_of(alloc, array.as_slice()),
        None => Ok(None),
    }
}

/// The strings of an array that holds nothing else.
fn strings_of(alloc: Global, values: &[Value]) -> Result<Option<EntryNames>, NoMemory>
    ensures found { IfOk result (λ found. IfSome found (λ entries. items_view values.now ≡ array_of entries)) }
    ensures none { IfOk result (λ found. IfNone found ((entries : List (List ℕ)) → items_view values.now ≡ array_of entries → ⊥)) }
{
    let mut entries = EntryNames::new(alloc);
    for value in values {
        let Some(text) = value.as_str() else {
            return Ok(None);
        };
        entries.push(Text::from_str(alloc, text)?)?;
    }
    Ok(Some(entries))
}

fn bad_settings(alloc: Global) -> Result<Fault, NoMemory>
    ensures { IfOk result (λ fault. fault ≡ bad_settings_by) }
{
    let path = Text::from_str(alloc, SETTINGS_FILE)?;
    let place = Place {
        path,
        offset: 0,
        line: 1,
        column: 1,
    };
    Ok(Fault {
        phase: Phase::Settings,
        number: 1,
        place,
    })
}
