// The tokens of a file, or its first fault.

ghost use Rattle.std.specs.Prelude.{◌≡◌, ◌+◌, ◌-◌, ◌^◌, ◌<◌, ◌≤◌, ◌⊎◌, List, length, IfOk, IfErr, MatchResult};
ghost use Rattle.kotlin_tree.specs.declared.tokens.KToken.{KToken};
ghost use Rattle.kotlin_lexer.specs.declared.found.LexFault.{LexFault};
ghost use Rattle.kotlin_lexer.specs.Cutting.{Lexes, Faults};
ghost use Rattle.kotlin_lexer.specs.Lexing.{number_of, fault_in};

use crate::cutting::reading_of;
use crate::found::{Code, LexFault, let_go};
use j2k_base::{Fault, NoMemory, Phase, Place, Stop, Text};
use kotlin_tree::KTokens;
use std::alloc::Global;

fn number_of(code: Code) -> u8
    ensures { result ≡ number_of code }
{
    match code {
        Code::Utf8 => 1,
        Code::Character => 2,
        Code::Form => 3,
        Code::Large => 4,
    }
}

fn fault_in(alloc: Global, path: &Text, fault: LexFault) -> Result<Fault, NoMemory>
    ensures { IfOk result (λ f. f ≡ fault_in path.now fault) }
{
    let path = Text::from_str(alloc, path.as_str())?;
    Ok(Fault {
        phase: Phase::KL,
        number: number_of(fault.code),
        place: Place {
            path,
            offset: fault.position.offset,
            line: fault.position.line,
            column: fault.position.column,
        },
    })
}

/// The tokens of the file of a path, each with what stands before it: line ends, or a `;`. The
/// last is the end of the file.
///
/// # Errors
/// The fault at the first place where no case applies: KL1 for a byte that is no UTF-8, KL2 for a
/// character that begins no token, KL3 for a comment or literal that isn't closed or isn't formed,
/// KL4 for an integer literal that is too large; or `Memory`, which no clause rules out.
pub fn lex(alloc: Global, path: &Text, bytes: &[u8]) -> Result<KTokens, Stop>
    requires { length bytes.now < 2 ^ 32 - 1 }
    // What is returned is so.
    ensures found { IfOk result (λ ts. Lexes bytes.now ts) }
    // A token takes a byte at least, but for the end of the file.
    ensures few { IfOk result (λ ts. length ts ≤ length bytes.now + 1) }
    // What is so is returned, unless memory runs out.
    ensures only { (ts : List KToken) → Lexes bytes.now ts →
        MatchResult result (λ us. us ≡ ts) (λ e. e ≡ Stop.Memory) }
    // Else the fault is the one at the first place where no case applies.
    ensures fault { IfErr result (λ e. (e ≡ Stop.Memory) ⊎ ((f : LexFault) × (e ≡ Stop.Fault (fault_in path.now f)) × Faults bytes.now f)) }
    ensures first { (f : LexFault) → Faults bytes.now f →
        MatchResult result (λ us. ⊥) (λ e. (e ≡ Stop.Memory) ⊎ (e ≡ Stop.Fault (fault_in path.now f))) }
{
    let read = reading_of(alloc, bytes)?;
    match read.fault {
        None => Ok(read.tokens),
        Some(fault) => {
            let_go(read);
            Err(Stop::Fault(fault_in(alloc, path, fault)?))
        }
    }
}
