// What one file is found to be.
ghost use Rattle.std.specs.Prelude.{◌≡◌, ◌<◌, ◌-◌, ◌^◌, length, IfOk};
ghost use Rattle.java_project.specs.Files.{HasTokens, IsFound};

use j2k_base::{Fault, NoMemory, SourceFile, Stop};
use java_lexer::lex;
use java_parser::parse;
use java_tree::Tokens;
use java_unit_grammar::JUnit;
use std::alloc::Global;

/// What a file is found to be: one with a fault of its tokens or of their spelling, or the unit that it spells.
#[derive(Drop)]
pub(crate) enum Found {
    Tokens(Fault),
    Spelling(Fault),
    Unit(JUnit),
}

pub(crate) fn look(alloc: Global, file: &SourceFile) -> Result<Found, NoMemory>
    requires { length file.now.bytes < 2 ^ 32 - 1 }
    ensures { IfOk result (IsFound file.now) }
{
    match lex(alloc, &file.path, file.bytes.as_slice()) {
        Ok(tokens) => look_at_tokens(alloc, file, tokens),
        Err(Stop::Fault(fault)) => Ok(Found::Tokens(fault)),
        Err(Stop::Memory) => Err(NoMemory),
    }
}

/// Looks at a file of these tokens.
fn look_at_tokens(alloc: Global, file: &SourceFile, tokens: Tokens) -> Result<Found, NoMemory>
    requires few { length tokens.list < 2 ^ 32 }
    requires has { HasTokens file.now tokens }
    ensures { IfOk result (IsFound file.now) }
{
    match parse(alloc, tokens) {
        Ok(unit) => Ok(Found::Unit(unit)),
        Err(Stop::Fault(fault)) => Ok(Found::Spelling(fault)),
        Err(Stop::Memory) => Err(NoMemory),
    }
}
