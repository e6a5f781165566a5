// Where a file that no unit spells is at fault.

ghost use Rattle.std.specs.Prelude.{◌≡◌, IfOk};
ghost use Rattle.java_parser.specs.Spelling as s;

use j2k_base::{Fault, NoMemory, Phase, Place, Text};
use java_brackets::Flaw;
use java_tree::Position;
use std::alloc::Global;

/// Why no unit spells a file.
#[derive(Clone, Copy, Debug, PartialEq, Eq)]
pub enum SyntaxFault {
    /// A bracket has no partner (S1).
    Unmatched,
    /// No form that its place takes spells a run of tokens (S2).
    NoForm,
    /// A bracket is the 201st that is open (S3).
    TooDeep,
}

pub fn number_of(fault: SyntaxFault) -> u8
    ensures { result ≡ s.number_of fault }
{
    match fault {
        SyntaxFault::Unmatched => 1,
        SyntaxFault::NoForm => 2,
        SyntaxFault::TooDeep => 3,
    }
}

pub fn of_flaw(flaw: Flaw) -> SyntaxFault
    ensures { result ≡ s.of_flaw flaw }
{
    match flaw {
        Flaw::Lonely => SyntaxFault::Unmatched,
        Flaw::TooDeep => SyntaxFault::TooDeep,
    }
}

/// The fault at a position of the file of a path.
pub fn fault_in(
    alloc: Global,
    path: &Text,
    fault: SyntaxFault,
    at: Position,
) -> Result<Fault, NoMemory>
    ensures { IfOk result (λ f. f ≡ s.fault_in path.now fault at) }
{
    let path = Text::from_str(alloc, path.as_str())?;
    Ok(Fault {
        phase: Phase::S,
        number: number_of(fault),
        place: Place {
            path,
            offset: at.offset,
            line: at.line,
            column: at.column,
        },
    })
}
