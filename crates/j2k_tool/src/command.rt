// The top call.
ghost use Rattle.std.specs.Prelude.{◌≡◌, ◌⊎◌, ◌≤◌, List, ℕ, [], OnOk, IfSome};
ghost use Rattle.j2k_io.specs.Causes.{Rose};
ghost use Rattle.j2k_io.specs.Disks.{listing};
ghost use Rattle.j2k_io.specs.Sinks.{IsPartOf};
ghost use Rattle.j2k_sources.specs.declared.limits.Excess.{Excess};
ghost use Rattle.j2k_sources.specs.Sources.{Exceeds};
ghost use Rattle.j2k_tool.specs.declared.files.TakenFile.{TakenFile};
ghost use Rattle.j2k_tool.specs.Asks.{Answer as Asked, Asks, Told, Untold, Stopped, IsAnswer, IsUnless, IsGiven, MayTell, KeepsFiles};
ghost use Rattle.j2k_tool.specs.Headline.{Headline};
ghost use Rattle.j2k_tool.specs.Projects.{IsProject};
ghost use Rattle.j2k_tool.specs.Texts.{read_fault_text, write_fault_text};
ghost use Rattle.j2k_tool.specs.Words.{words_mean};

use crate::answers::perform;
use crate::status::Status;
use crate::texts::{NO_MEMORY, READ_FAULT, WRITE_FAULT};
use j2k_base::Words;
use j2k_io::{Disk, Sink, SinkStop};
use j2k_sources::Halt;
use std::alloc::Global;

/// Does what the words ask for: `convert SRC DST` reads the project under SRC, and writes its Kotlin and a report
/// under DST, which holds no file. It prints one line.
pub fn run<D: Disk, S: Sink>(alloc: Global, words: &Words, disk: &mut D, out: &mut S) -> Status
    // Where the disk tells its files, an answer is what the words and the files ask for: the files of that answer
    // were made, and its text was given.
    ensures answered { IsAnswer result → IfSome (D.held disk.old) (λ files.
        Told (Asks words.now files) result (Some files) (D.held disk.new) (S.given out.old) (S.given out.new)) }

    // What was converted makes the same steps.
    ensures same_steps { result ≡ Status.Done → IfSome (D.held disk.old) (λ files. Headline words.now files (D.held disk.new)) }

    // What they ask for is answered, unless memory ran out or a counted fault came.
    ensures complete { IfSome (D.held disk.old) (λ files. (asked : Asked) → Asks words.now files asked →
        IsUnless asked.status result (Rose (D.reads disk.old) (D.reads disk.new)) (Rose (D.writes disk.old) (D.writes disk.new)) (Rose (S.faults out.old) (S.faults out.new))) }
    ensures converts { IfSome (D.held disk.old) (λ files. (src dst : List ℕ) (taken : List TakenFile) → words_mean words.now ≡ Some (src, dst) → listing dst files ≡ [] → IsProject src files taken →
        IsUnless Status.Done result (Rose (D.reads disk.old) (D.reads disk.new)) (Rose (D.writes disk.old) (D.writes disk.new)) (Rose (S.faults out.old) (S.faults out.new))) }
    ensures exceeds { IfSome (D.held disk.old) (λ files. (src dst : List ℕ) (excess : Excess) → words_mean words.now ≡ Some (src, dst) → listing dst files ≡ [] → Exceeds src files excess →
        IsUnless Status.TooLarge result (Rose (D.reads disk.old) (D.reads disk.new)) (Rose (D.writes disk.old) (D.writes disk.new)) (Rose (S.faults out.old) (S.faults out.new))) }

    // Each status has its cause.
    ensures usage { result ≡ Status.Usage → words_mean words.now ≡ None }
    ensures no_words { words_mean words.now ≡ None → IsUnless Status.Usage result ⊥ ⊥ (Rose (S.faults out.old) (S.faults out.new)) }
    ensures read_fault { result ≡ Status.ReadFault → Rose (D.reads disk.old) (D.reads disk.new) }
    ensures write_fault { result ≡ Status.WriteFault → Rose (D.writes disk.old) (D.writes disk.new) }
    ensures out_fault { result ≡ Status.OutFault → Rose (S.faults out.old) (S.faults out.new) }
    ensures too_large { result ≡ Status.TooLarge → IfSome (D.held disk.old) (λ files. (src : List ℕ) × (dst : List ℕ) × (words_mean words.now ≡ Some (src, dst)) × (excess : Excess) × Exceeds src files excess) }

    // What it leaves on the disk.
    ensures unchanged { KeepsFiles result → D.held disk.new ≡ D.held disk.old }
    ensures stopped { (result ≡ Status.WriteFault) ⊎ (result ≡ Status.NoMemory) → IfSome (D.held disk.old) (λ files.
        Stopped (Asks words.now files) (Some files) (D.held disk.new)) }
    ensures untold { result ≡ Status.OutFault → IfSome (D.held disk.old) (λ files.
        Untold (Asks words.now files) (Some files) (D.held disk.new) (S.given out.old) (S.given out.new)) }

    // What it gives to the sink after a fault.
    ensures read_text { result ≡ Status.ReadFault → IsGiven (S.given out.old) read_fault_text (S.given out.new) (Rose (S.faults out.old) (S.faults out.new)) }
    ensures write_text { result ≡ Status.WriteFault → IsGiven (S.given out.old) write_fault_text (S.given out.new) (Rose (S.faults out.old) (S.faults out.new)) }
    ensures memory_text { result ≡ Status.NoMemory → IfSome (D.held disk.old) (λ files.
        (text : List ℕ) × MayTell (Asks words.now files) (Some files) (D.held disk.new) (Rose (D.reads disk.old) (D.reads disk.new)) (Rose (D.writes disk.old) (D.writes disk.new)) text
        × IsPartOf (S.given out.old) text (S.given out.new)) }

    // No count falls.
    ensures later { (D.reads disk.old ≤ D.reads disk.new) × (D.writes disk.old ≤ D.writes disk.new) × (S.faults out.old ≤ S.faults out.new) }
{
    match perform(alloc, words, disk) {
        Ok(answer) => match out.put(answer.message.as_bytes()) {
            Ok(()) => answer.status,
            Err(SinkStop::Failed) => Status::OutFault,
            Err(SinkStop::Memory) => Status::NoMemory,
        },
        Err(Halt::Read) => match tell(READ_FAULT, out) {
            Ok(()) => Status::ReadFault,
            Err(OutOfMemory) => Status::NoMemory,
        },
        Err(Halt::Write) => match tell(WRITE_FAULT, out) {
            Ok(()) => Status::WriteFault,
            Err(OutOfMemory) => Status::NoMemory,
        },
        Err(Halt::Memory) => {
            let _ = tell(NO_MEMORY, out);
            Status::NoMemory
        }
    }
}

/// Memory ran out while a text was put.
#[derive(Drop)]
struct OutOfMemory;

/// Puts the text of a fault. Where the sink fails, the fault stands as it is.
fn tell<S: Sink>(text: &str, out: &mut S) -> Result<(), OutOfMemory>
    ensures given { OnOk result (IsGiven (S.given out.old) text.now (S.given out.new) (Rose (S.faults out.old) (S.faults out.new))) }
    ensures part { IsPartOf (S.given out.old) text.now (S.given out.new) }
    ensures later { S.faults out.old ≤ S.faults out.new }
{
    match out.put(text.as_bytes()) {
        Ok(()) => Ok(()),
        Err(SinkStop::Failed) => Ok(()),
        Err(SinkStop::Memory) => Err(OutOfMemory),
    }
}
