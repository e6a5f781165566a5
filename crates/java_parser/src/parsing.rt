//! From tokens to the unit that they spell, or to the first fault.

ghost use Rattle.std.specs.Prelude.{◌≡◌, ◌<◌, ◌^◌, ◌⊎◌, ℕ, length, slice_get, Some, None, IfOk, IfErr, MatchResult};
ghost use Rattle.java_tree.specs.declared.tokens.JToken.{JToken};
ghost use Rattle.java_tree.specs.Seen.{seen};
ghost use Rattle.java_unit_grammar.specs.declared.units.JUnit.{JUnit};
ghost use Rattle.java_unit_grammar.specs.Reading as r;
ghost use Rattle.java_parser.specs.declared.faults.SyntaxFault.{SyntaxFault};
ghost use Rattle.java_parser.specs.Spelling.{JSpells, HasNoFlaw, IsFaulty, fault_in};
ghost use Rattle.java_parser.specs.Judging.{IsJudged};

use crate::faults::{SyntaxFault, fault_in, of_flaw};
use j2k_base::{NoMemory, Stop};
use java_brackets::first_flaw;
use java_fault_finder::first_fault;
use java_tree::{JToken, Tokens};
use java_unit_grammar::JUnit;
use java_unit_parser::{Declared, unit};
use std::alloc::Global;

/// What is found of a file.
#[derive(Drop)]
enum Judged {
    /// What it declares.
    Unit(Declared),
    /// Its fault, and the number of the token there.
    Fault(SyntaxFault, usize),
}

/// The number of the token that begins the first run which no form of its place spells, where nothing is read.
fn unspelled(alloc: Global, tokens: &[JToken]) -> Result<usize, NoMemory>
    requires few { length tokens.now < 2 ^ 32 }
    requires whole { HasNoFlaw (seen tokens.now) }
    requires unread { r.unit_read (length tokens.now) (seen tokens.now) ≡ None }
    ensures { IfOk result (λ n. IsFaulty tokens.now SyntaxFault.NoForm n) }
{
    match first_fault(alloc, tokens)? {
        Some(number) => Ok(number),
        None => unreachable!(),
    }
}

/// What is found of a file none of whose brackets is at fault.
fn judge_runs(alloc: Global, tokens: &[JToken]) -> Result<Judged, NoMemory>
    requires few { length tokens.now < 2 ^ 32 }
    requires whole { HasNoFlaw (seen tokens.now) }
    ensures { IfOk result (λ j. IsJudged tokens.now j) }
{
    match unit(alloc, tokens)? {
        Some(found) => Ok(Judged::Unit(found)),
        None => Ok(Judged::Fault(SyntaxFault::NoForm, unspelled(alloc, tokens)?)),
    }
}

fn judge(alloc: Global, tokens: &[JToken]) -> Result<Judged, NoMemory>
    requires { length tokens.now < 2 ^ 32 }
    ensures { IfOk result (λ j. IsJudged tokens.now j) }
{
    match first_flaw(alloc, tokens)? {
        Some(flawed) => Ok(Judged::Fault(of_flaw(flawed.flaw), flawed.number as usize)),
        None => judge_runs(alloc, tokens),
    }
}

/// The unit that the tokens of a file spell (JLS 7.3), with the path and the comments of the file.
///
/// # Errors
/// The fault of the file, where no unit spells its tokens: S1 at the first bracket that has no
/// partner, S3 at the first that opens where 200 are open, whichever comes first; where there is
/// neither, S2 at the first token of the first run of tokens that no form of its place spells; or
/// `Memory`, which no clause rules out.
pub fn parse(alloc: Global, tokens: Tokens) -> Result<JUnit, Stop>
    requires { length tokens.list < 2 ^ 32 }
    // What is returned is what the tokens spell.
    ensures found { IfOk result (λ u. JSpells u tokens) }
    // What they spell is returned, unless memory runs out.
    ensures only { (u : JUnit) → JSpells u tokens → MatchResult result (λ v. v ≡ u) (λ e. e ≡ Stop.Memory) }
    // Else the fault is the one of the file.
    ensures fault { IfErr result (λ e. (e ≡ Stop.Memory) ⊎ ((f : SyntaxFault) × (n : ℕ) × (token : JToken) × IsFaulty tokens.list f n × (slice_get tokens.list n ≡ Some token) × (e ≡ Stop.Fault (fault_in tokens.path f token.position)))) }
    ensures first { (f : SyntaxFault) (n : ℕ) (token : JToken) → IsFaulty tokens.list f n → slice_get tokens.list n ≡ Some token →
        MatchResult result (λ u. ⊥) (λ e. (e ≡ Stop.Memory) ⊎ (e ≡ Stop.Fault (fault_in tokens.path f token.position))) }
{
    match judge(alloc, tokens.list.as_slice())? {
        Judged::Unit(found) => Ok(JUnit {
            path: tokens.path,
            package: found.within,
            imports: found.imports,
            types: found.types,
            comments: tokens.comments,
        }),
        Judged::Fault(fault, number) => {
            let at = tokens.list.get(number).position;
            Err(Stop::Fault(fault_in(alloc, &tokens.path, fault, at)?))
        }
    }
}
