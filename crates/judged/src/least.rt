// The first of the faults that were noted.
ghost use Rattle.std.specs.Prelude.{◌≡◌, ◌↔◌, [], IsNone, IfOk, IfSome};
ghost use Rattle.std.specs.Option.{option_copied};
ghost use Rattle.judged.specs.Notes.{IsFirst, faults_in};
ghost use Rattle.judged.specs.Notes as s;

use crate::notes::{Note, fault_at};
use j2k_base::{Fault, NoMemory, Phase};
use std::alloc::Global;
use std::cmp::Ordering;

/// The place of a phase in their order.
fn rank(phase: Phase) -> u8
    ensures { result ≡ s.rank phase }
{
    match phase {
        Phase::Settings => 0,
        Phase::L => 1,
        Phase::S => 2,
        Phase::N => 3,
        Phase::T => 4,
        Phase::F => 5,
        Phase::P => 6,
        Phase::U => 7,
        Phase::KL => 8,
        Phase::KS => 9,
        Phase::K => 10,
    }
}

/// By the phase, then the bytes of the path, then the offset, then the number of the code.
pub fn fault_cmp(a: &Fault, b: &Fault) -> Ordering
    ensures { result ≡ s.fault_cmp a.now b.now }
{
    let phases = rank(a.phase).cmp(&rank(b.phase));
    let paths = a.place.path.as_bytes().cmp(b.place.path.as_bytes());
    let offsets = a.place.offset.cmp(&b.place.offset);
    let numbers = a.number.cmp(&b.number);
    phases.then(paths.then(offsets.then(numbers)))
}

/// The first of a fault that was found and a note: what was found, unless the note is a fault before it.
fn earlier<'a, P>(found: Option<&'a Fault>, note: &'a Note<P>) -> Option<&'a Fault>
    ensures { option_copied result ≡ s.earlier (option_copied found.entry) note.entry.now }
{
    match (found, note) {
        (found, Note::Pending(_)) => found,
        (None, Note::Fault(fault)) => Some(fault),
        (Some(first), Note::Fault(fault)) => {
            if fault_cmp(fault, first).is_lt() {
                Some(fault)
            } else {
                Some(first)
            }
        }
    }
}

/// The first fault, one note after the other.
fn least<P>(notes: &[Note<P>]) -> Option<&Fault>
    ensures { option_copied result ≡ s.first_fault notes.now }
{
    let mut found = None;
    let mut rest = notes;
    while let [note, more @ ..] = rest {
        found = earlier(found, note);
        rest = more;
    }
    found
}

/// The first of the faults: none of the notes is a fault before it, and of those that stand at one place in all the
/// first that was noted. None exactly where no note is a fault. It takes no memory.
pub fn first_fault<P>(notes: &[Note<P>]) -> Option<&Fault>
    ensures value { option_copied result ≡ s.first_fault notes.now }
    ensures first { IfSome result (λ fault. IsFirst notes.now fault.now) }
    ensures none { IsNone result ↔ (faults_in notes.now ≡ []) }
{
    least(notes)
}

pub fn copy_fault(alloc: Global, fault: &Fault) -> Result<Fault, NoMemory>
    ensures { IfOk result (λ copy. copy ≡ fault.now) }
{
    fault_at(
        alloc,
        fault.phase,
        fault.number,
        &fault.place.path,
        fault.place.offset,
        fault.place.line,
        fault.place.column,
    )
}
