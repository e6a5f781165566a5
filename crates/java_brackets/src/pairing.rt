//! The brackets of a file, and their partners.

ghost use Rattle.std.specs.Prelude.{◌≡◌, ◌<◌, ◌^◌, suc, None, IfOk, IfSome, length, slice_index};
ghost use Rattle.java_tree.specs.Seen.{seen};
ghost use Rattle.java_brackets.specs.Brackets.{IsFirstFlaw, IsPaired, Partnered};
ghost use Rattle.java_brackets.specs.Steps.{IsPairing, noted};

use crate::flaws::Flawed;
use crate::scanning::first_flaw;
use crate::stack::{Opened, bracket_of, closed_by, pass};
use j2k_base::NoMemory;
use java_tree::JToken;
use std::alloc::Global;
use std::marker::Model;

/// The partners of brackets, seen by contracts as a list: for each token the number of the one that it
/// pairs with, its own where it is no bracket.
#[derive(Drop)]
pub struct Partners {
    numbers: Vec<u32>,
}

impl Model for Partners {
    ghost use Rattle.std.specs.Prelude.{List, ℕ};

    ghost Value = { List ℕ };

    ghost view = { λ a. a.numbers.items };
}

impl Partners {
    /// How many tokens there are.
    pub fn len(&self) -> usize
        ensures { result ≡ length self.now }
    {
        self.numbers.len()
    }

    /// The number of the token that the token of a number pairs with.
    pub fn get(&self, at: usize) -> usize
        requires { at < length self.now }
        ensures { result ≡ slice_index self.now at }
    {
        self.numbers[at] as usize
    }
}

/// What becomes of the brackets of a file.
#[derive(Drop)]
pub enum Paired {
    /// The first that is at fault.
    Flawed(Flawed),
    /// None is.
    Pairs(Partners),
}

/// What is known of partners, as far as brackets were read.
#[derive(Drop)]
struct Pairing {
    /// The brackets that are open, the outermost first.
    stack: Vec<Opened>,
    /// The partners; of one that has none yet its own number.
    partners: Vec<u32>,
}

/// Notes that a token pairs with an earlier one, or that none is known.
fn note(partners: &mut Vec<u32>, number: u32, partner: Option<u32>) -> Result<(), NoMemory>
    requires { IfSome partner (λ i. i < length partners.old.items) }
    ensures { IfOk result (λ _. partners.new.items ≡ noted partners.old.items number partner) }
{
    match partner {
        Some(opened) => {
            partners[opened as usize] = number;
            partners.push(opened)?;
        }
        None => partners.push(number)?,
    }
    Ok(())
}

impl Pairing {
    /// Goes past the next token.
    fn take(&mut self, tokens: &[JToken], number: usize) -> Result<(), NoMemory>
        requires within { number < length tokens.now }
        requires few { length tokens.now < 2 ^ 32 }
        requires pairing { IsPairing (seen tokens.now) number self.old }
        ensures { IfOk result (λ _. IsPairing (seen tokens.now) (suc number) self.new) }
    {
        let bracket = bracket_of(&tokens[number]);
        let number = number as u32;
        let partner = closed_by(&self.stack, bracket);
        note(&mut self.partners, number, partner)?;
        pass(&mut self.stack, number, bracket, partner)?;
        Ok(())
    }
}

fn pairing_of(alloc: Global, tokens: &[JToken]) -> Result<Pairing, NoMemory>
    requires { length tokens.now < 2 ^ 32 }
    ensures { IfOk result (λ p. IsPairing (seen tokens.now) (length tokens.now) p) }
{
    let mut pairing = Pairing {
        stack: Vec::new(alloc),
        partners: Vec::new(alloc),
    };
    for number in 0..tokens.len() {
        pairing.take(tokens, number)?;
    }
    Ok(pairing)
}

/// The partners of a file's brackets, none of which is at fault.
fn partners_of(alloc: Global, tokens: &[JToken]) -> Result<Partners, NoMemory>
    requires few { length tokens.now < 2 ^ 32 }
    requires whole { IsFirstFlaw (seen tokens.now) None }
    ensures { IfOk result (λ p. Partnered (seen tokens.now) p) }
{
    let pairing = pairing_of(alloc, tokens)?;
    Ok(Partners {
        numbers: pairing.partners,
    })
}

/// The partners of a file's brackets, or the first bracket at fault. A bracket pairs with the
/// innermost one that is open, where that has its form. At fault is one with no partner, and the
/// one that opens where 200 are open.
pub fn pairs(alloc: Global, tokens: &[JToken]) -> Result<Paired, NoMemory>
    requires { length tokens.now < 2 ^ 32 }
    ensures { IfOk result (λ p. IsPaired (seen tokens.now) p) }
{
    match first_flaw(alloc, tokens)? {
        Some(flawed) => Ok(Paired::Flawed(flawed)),
        None => Ok(Paired::Pairs(partners_of(alloc, tokens)?)),
    }
}
