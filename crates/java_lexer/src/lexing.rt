// The tokens and comments of a file, or its first fault.

ghost use Rattle.std.specs.Prelude.{◌≡◌, ◌-◌, ◌^◌, ◌<◌, ◌≤◌, ◌⊎◌, List, length, IfOk, IfErr, MatchResult};
ghost use Rattle.java_tree.specs.declared.tokens.JToken.{JToken};
ghost use Rattle.java_tree.specs.declared.tokens.Comment.{Comment};
ghost use Rattle.java_lexer.specs.declared.found.LexFault.{LexFault};
ghost use Rattle.java_lexer.specs.Cutting.{Lexes, Faults};
ghost use Rattle.java_lexer.specs.Lexing.{number_of, fault_in};

use crate::cutting::reading_of;
use crate::found::{Code, LexFault};
use j2k_base::{Fault, NoMemory, Phase, Place, Stop, Text};
use java_tree::Tokens;
use std::alloc::Global;

fn number_of(code: Code) -> u8
    ensures { result ≡ number_of code }
{
    match code {
        Code::Utf8 => 1,
        Code::Escape => 2,
        Code::Character => 3,
        Code::Form => 4,
        Code::Large => 5,
        Code::Outside => 6,
    }
}

fn fault_in(alloc: Global, path: &Text, fault: LexFault) -> Result<Fault, NoMemory>
    ensures { IfOk result (λ f. f ≡ fault_in path.now fault) }
{
    let path = Text::from_str(alloc, path.as_str())?;
    Ok(Fault {
        phase: Phase::L,
        number: number_of(fault.code),
        place: Place {
            path,
            offset: fault.position.offset,
            line: fault.position.line,
            column: fault.position.column,
        },
    })
}

/// The tokens and comments of the file of a path, with their places.
///
/// # Errors
/// The fault at the first place where no case applies: L1 for a byte that is no UTF-8, L2 for a
/// bad Unicode escape, L3 for a character that begins no token, L4 for a comment or literal that
/// isn't closed or isn't formed, L5 for an integer literal that is too large, L6 for what is
/// outside the profile; or `Memory`, which no clause rules out.
pub fn lex(alloc: Global, path: &Text, bytes: &[u8]) -> Result<Tokens, Stop>
    requires { length bytes.now < 2 ^ 32 - 1 }
    ensures path { IfOk result (λ t. t.path ≡ path.now) }
    // What is returned is so.
    ensures found { IfOk result (λ t. Lexes bytes.now t.list t.comments) }
    // A token takes a byte at least.
    ensures few { IfOk result (λ t. length t.list ≤ length bytes.now) }
    // What is so is returned, unless memory runs out.
    ensures only { (ts : List JToken) (cs : List Comment) → Lexes bytes.now ts cs →
        MatchResult result (λ t. (t.list ≡ ts) × (t.comments ≡ cs)) (λ e. e ≡ Stop.Memory) }
    // Else the fault is the one at the first place where no case applies.
    ensures fault { IfErr result (λ e. (e ≡ Stop.Memory) ⊎ ((f : LexFault) × (e ≡ Stop.Fault (fault_in path.now f)) × Faults bytes.now f)) }
    ensures first { (f : LexFault) → Faults bytes.now f →
        MatchResult result (λ t. ⊥) (λ e. (e ≡ Stop.Memory) ⊎ (e ≡ Stop.Fault (fault_in path.now f))) }
{
    let read = reading_of(alloc, bytes)?;
    match read.fault {
        None => Ok(Tokens {
            path: Text::from_str(alloc, path.as_str())?,
            list: read.tokens,
            comments: read.comments,
        }),
        Some(fault) => Err(Stop::Fault(fault_in(alloc, path, fault)?)),
    }
}
