// The faults of names as notes.
ghost use Rattle.std.specs.Prelude.{◌≡◌, ◌++◌, IfOk, slice_get};
ghost use Rattle.std.specs.Option.{option_copied};
ghost use Rattle.java_name_faults.specs.Notes as s;

use j2k_base::{NoMemory, Phase};
use java_classes::NameFault;
use java_unit_grammar::JUnit;
use judged::{Note, add_fault, fault_at};
use sqlite_items::Items;
use std::alloc::Global;

/// What is judged later: of names nothing is.
#[derive(Clone, Copy)]
pub struct Later;

fn push_note(
    alloc: Global,
    out: &mut Items<Note<Later>>,
    unit: Option<&JUnit>,
    x: &NameFault,
) -> Result<(), NoMemory>
    ensures { IfOk result (λ u. out.new ≡ out.old ++ s.note_in (option_copied unit.entry) x.now) }
{
    match unit {
        None => Ok(()),
        Some(unit) => {
            let fault = fault_at(
                alloc,
                Phase::N,
                x.number,
                &unit.path,
                x.at.offset,
                x.at.line,
                x.at.column,
            )?;
            add_fault(out, fault)
        }
    }
}

fn push_in(
    alloc: Global,
    out: &mut Items<Note<Later>>,
    units: &[JUnit],
    x: &NameFault,
) -> Result<(), NoMemory>
    ensures { IfOk result (λ u. out.new ≡ out.old ++ s.note_in (slice_get units.now x.now.unit) x.now) }
{
    push_note(alloc, out, units.get(x.unit), x)
}

/// The faults of names, in the files that they stand in.
pub fn name_notes(
    alloc: Global,
    units: &[JUnit],
    faults: &[NameFault],
) -> Result<Items<Note<Later>>, NoMemory>
    ensures { IfOk result (λ notes. notes ≡ s.notes units.now faults.now) }
{
    let mut out = Items::new(alloc);
    for x in faults {
        push_in(alloc, &mut out, units, x)?;
    }
    Ok(out)
}
