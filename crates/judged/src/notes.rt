// What is noted of a part.
ghost use Rattle.std.specs.Prelude.{◌≡◌, ◌++◌, ◌∷◌, [], IfOk, OnOk, OnErr};
ghost use Rattle.judged.specs.Notes as s;

use j2k_base::{Fault, NoMemory, Phase, Place, Text};
use sqlite_items::Items;
use std::alloc::Global;

/// What is noted of a part: a fault, or what is judged behind it, as the block of a lambda. What a crate leaves
/// for later is its own type.
#[derive(Drop)]
pub enum Note<P> {
    Fault(Fault),
    Pending(P),
}

/// A fault, after what was noted. After want of memory the notes are as before.
pub fn add_fault<P: Drop>(notes: &mut Items<Note<P>>, fault: Fault) -> Result<(), NoMemory>
    ensures ok { OnOk result (notes.new ≡ notes.old ++ Note.Fault fault ∷ []) }
    ensures err { OnErr result (notes.new ≡ notes.old) }
{
    notes.push(Note::Fault(fault))?;
    Ok(())
}

/// What is judged later, after what was noted. After want of memory the notes are as before.
pub fn add_pending<P: Drop>(notes: &mut Items<Note<P>>, later: P) -> Result<(), NoMemory>
    ensures ok { OnOk result (notes.new ≡ notes.old ++ Note.Pending later ∷ []) }
    ensures err { OnErr result (notes.new ≡ notes.old) }
{
    notes.push(Note::Pending(later))?;
    Ok(())
}

/// A fault at a place of the file of a path: the byte from 0, the line and the column from 1.
pub fn fault_at(
    alloc: Global,
    phase: Phase,
    number: u8,
    path: &Text,
    offset: u32,
    line: u32,
    column: u32,
) -> Result<Fault, NoMemory>
    ensures { IfOk result (λ fault. fault ≡ s.fault_at phase number path.now offset line column) }
{
    let path = Text::from_str(alloc, path.as_str())?;
    let place = Place {
        path,
        offset,
        line,
        column,
    };
    Ok(Fault {
        phase,
        number,
        place,
    })
}
