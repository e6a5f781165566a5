//! The first bracket at fault.

ghost use Rattle.std.specs.Prelude.{◌≡◌, ◌<◌, ◌^◌, suc, IfOk, length};
ghost use Rattle.kotlin_brackets.specs.Brackets.{IsFirstFlaw};
ghost use Rattle.kotlin_brackets.specs.Steps.{IsScan, told};

use crate::flaws::{Flaw, Flawed};
use crate::stack::{Opened, bracket_of, closed_by, flaw_of, least_flaw, pass};
use j2k_base::NoMemory;
use kotlin_tree::KToken;
use std::alloc::Global;

/// What is known of flaws, as far as brackets were read.
#[derive(Drop)]
struct Scan {
    /// The brackets that are open, the outermost first.
    stack: Vec<Opened>,
    /// The first flaw, but for those of brackets that are never closed.
    first: Option<Flawed>,
}

fn told(first: Option<Flawed>, number: u32, flaw: Option<Flaw>) -> Option<Flawed>
    ensures { result ≡ told first number flaw }
{
    match (first, flaw) {
        (None, Some(flaw)) => Some(Flawed { number, flaw }),
        _ => first,
    }
}

impl Scan {
    /// Goes past the next token.
    fn take(&mut self, tokens: &[KToken], number: usize) -> Result<(), NoMemory>
        requires within { number < length tokens.now }
        requires few { length tokens.now < 2 ^ 32 }
        requires scan { IsScan tokens.now number self.old }
        ensures { IfOk result (λ _. IsScan tokens.now (suc number) self.new) }
    {
        let found = bracket_of(&tokens[number].kind);
        let number = number as u32;
        let partner = closed_by(&self.stack, found);
        let flaw = flaw_of(&self.stack, found, partner);
        self.first = told(self.first, number, flaw);
        pass(&mut self.stack, number, found, partner)?;
        Ok(())
    }
}

fn scanned(alloc: Global, tokens: &[KToken]) -> Result<Scan, NoMemory>
    requires { length tokens.now < 2 ^ 32 }
    ensures { IfOk result (λ s. IsScan tokens.now (length tokens.now) s) }
{
    let mut scan = Scan {
        stack: Vec::new(alloc),
        first: None,
    };
    for number in 0..tokens.len() {
        scan.take(tokens, number)?;
    }
    Ok(scan)
}

/// The first bracket at fault, where one is. At fault is one with no partner, and the one that opens where 1,600 are open.
pub fn first_flaw(alloc: Global, tokens: &[KToken]) -> Result<Option<Flawed>, NoMemory>
    requires { length tokens.now < 2 ^ 32 }
    ensures { IfOk result (λ f. IsFirstFlaw tokens.now f) }
{
    let scan = scanned(alloc, tokens)?;
    Ok(least_flaw(&scan.stack, scan.first))
}
