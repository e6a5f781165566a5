// The first of the faults of names.
ghost use Rattle.std.specs.Prelude.{◌≡◌, IfOk, IfSome, IsNone, ◌↔◌, []};
ghost use Rattle.judged.specs.Notes.{IsFirst, faults_in, first_fault};
ghost use Rattle.java_name_faults.specs.Notes as s;

use crate::notes::{Later, name_notes};
use j2k_base::{Fault, NoMemory};
use java_classes::NameFault;
use java_unit_grammar::JUnit;
use judged::{Note, copy_fault, first_fault};
use std::alloc::Global;

fn copied(alloc: Global, notes: &[Note<Later>]) -> Result<Option<Fault>, NoMemory>
    ensures value { IfOk result (λ found. found ≡ first_fault notes.now) }
    ensures first { IfOk result (λ found. IfSome found (IsFirst notes.now)) }
    ensures none { IfOk result (λ found. IsNone found ↔ (faults_in notes.now ≡ [])) }
{
    match first_fault(notes) {
        None => Ok(None),
        Some(fault) => Ok(Some(copy_fault(alloc, fault)?)),
    }
}

/// The first of the faults of names by the bytes of the path, the offset and the number of the code: none is before it. None
/// exactly where there is none.
pub fn first_name_fault(
    alloc: Global,
    units: &[JUnit],
    faults: &[NameFault],
) -> Result<Option<Fault>, NoMemory>
    ensures first { IfOk result (λ found. IfSome found (IsFirst (s.notes units.now faults.now))) }
    ensures none { IfOk result (λ found. IsNone found ↔ (faults_in (s.notes units.now faults.now) ≡ [])) }
{
    let notes = name_notes(alloc, units, faults)?;
    copied(alloc, notes.as_slice())
}
