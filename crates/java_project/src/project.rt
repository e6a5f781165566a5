// The files of a project, one after the other.
ghost use Rattle.std.specs.Prelude.{◌≡◌, Some, IfOk, OnOk, MatchResult};
ghost use Rattle.java_project.specs.Files.{AreShort, AreFirsts, IsSpelled, IsRefused};
ghost use Rattle.java_project.specs.Files as s;

use crate::files::{Found, look};
use j2k_base::{Fault, NoMemory, SourceFile};
use java_unit_grammar::JUnit;
use sqlite_items::Items;
use std::alloc::Global;

/// The first fault of each kind among files, and the units that files spell.
#[derive(Drop)]
struct Firsts {
    tokens: Option<Fault>,
    spelling: Option<Fault>,
    units: Items<JUnit>,
}

impl Firsts {
    /// With what is found of one more file.
    fn add(&mut self, found: Found) -> Result<(), NoMemory>
        ensures { OnOk result (self.new ≡ s.added self.old found) }
    {
        match found {
            Found::Tokens(fault) => keep_first(&mut self.tokens, fault),
            Found::Spelling(fault) => keep_first(&mut self.spelling, fault),
            Found::Unit(unit) => self.units.push(unit)?,
        }
        Ok(())
    }
}

fn keep_first(first: &mut Option<Fault>, fault: Fault)
    ensures { first.new ≡ s.earliest first.old (Some fault) }
{
    if first.is_none() {
        *first = Some(fault);
    }
}

fn let_go_fault(_fault: Option<Fault>) {}

/// The first of two that there is.
fn earliest(first: Option<Fault>, second: Option<Fault>) -> Option<Fault>
    ensures { result ≡ s.earliest first second }
{
    match first {
        Some(fault) => {
            let_go_fault(second);
            Some(fault)
        }
        None => second,
    }
}

fn let_go_units(_units: Items<JUnit>) {}

fn outcome(firsts: Firsts) -> Result<Items<JUnit>, Fault>
    ensures { result ≡ s.outcome firsts }
{
    let Firsts {
        tokens,
        spelling,
        units,
    } = firsts;
    match earliest(tokens, spelling) {
        Some(fault) => {
            let_go_units(units);
            Err(fault)
        }
        None => Ok(units),
    }
}

fn firsts_of(alloc: Global, files: &[SourceFile]) -> Result<Firsts, NoMemory>
    requires { AreShort files.now }
    ensures { IfOk result (AreFirsts files.now) }
{
    let mut firsts = Firsts {
        tokens: None,
        spelling: None,
        units: Items::new(alloc),
    };
    for file in files {
        let found = look(alloc, file)?;
        firsts.add(found)?;
    }
    Ok(firsts)
}

/// The units that the files of a project spell, in the order of the files, or the first fault of their text: that of the tokens of
/// the first file that has one (L), and where none has, that of the spelling of the first file that has one (S).
///
/// # Errors
/// `NoMemory`, which no clause rules out.
#[tactic(auto, using(crate::proofs::Reading::outcome_is))]
pub fn spelling(
    alloc: Global,
    files: &[SourceFile],
) -> Result<Result<Items<JUnit>, Fault>, NoMemory>
    requires { AreShort files.now }
    ensures { IfOk result (λ answer. MatchResult answer (IsSpelled files.now) (IsRefused files.now)) }
{
    let firsts = firsts_of(alloc, files)?;
    Ok(outcome(firsts))
}
