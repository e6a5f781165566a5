// A tree from the words that build it, each operator behind its operands.

use crate::words::{constant, kind, operator};
use j2k_base::{CExpr, Kind, NoMemory, Op2, Units, Value};
use sqlite_items::Boxed;
use std::alloc::Global;

type Stack = Vec<Boxed<CExpr>>;

#[derive(Clone, Copy)]
enum Sign {
    Plus,
    Minus,
    Flip,
    Not,
    To(Kind),
}

/// What a word of a tree is: an operator with so many operands, or a leaf.
#[derive(Clone, Copy)]
enum Part<'a> {
    One(Sign),
    Two(Op2),
    Choose,
    Text(&'a str),
}

fn part_of(word: &str) -> Part<'_> {
    if let Some(op) = operator(word) {
        return Part::Two(op);
    }
    match word {
        "Plus" => Part::One(Sign::Plus),
        "Minus" => Part::One(Sign::Minus),
        "Flip" => Part::One(Sign::Flip),
        "Not" => Part::One(Sign::Not),
        "Choose" => Part::Choose,
        _ => match kind(word) {
            Some(to) => Part::One(Sign::To(to)),
            None => Part::Text(word),
        },
    }
}

fn signed(sign: Sign, a: Boxed<CExpr>) -> CExpr {
    match sign {
        Sign::Plus => CExpr::Plus(a),
        Sign::Minus => CExpr::Minus(a),
        Sign::Flip => CExpr::Flip(a),
        Sign::Not => CExpr::Not(a),
        Sign::To(to) => CExpr::Cast(to, a),
    }
}

fn put(alloc: Global, stack: &mut Stack, made: CExpr) -> Result<(), NoMemory> {
    stack.push(Boxed::new(alloc, made)?)?;
    Ok(())
}

fn put_text(alloc: Global, stack: &mut Stack, text: &str) -> Result<(), NoMemory> {
    let mut units = Units::new(alloc);
    for byte in text.as_bytes() {
        units.push(u16::from(*byte))?;
    }
    put(alloc, stack, CExpr::Leaf(Value::Text(units)))
}

fn put_one(alloc: Global, stack: &mut Stack, sign: Sign) -> Result<(), NoMemory> {
    match stack.pop() {
        Some(a) => put(alloc, stack, signed(sign, a)),
        None => Ok(()),
    }
}

fn put_two(alloc: Global, stack: &mut Stack, op: Op2) -> Result<(), NoMemory> {
    match (stack.pop(), stack.pop()) {
        (Some(b), Some(a)) => put(alloc, stack, CExpr::Two(op, a, b)),
        _ => Ok(()),
    }
}

fn put_choice(alloc: Global, stack: &mut Stack) -> Result<(), NoMemory> {
    match (stack.pop(), stack.pop(), stack.pop()) {
        (Some(b), Some(a), Some(test)) => put(alloc, stack, CExpr::Choose(test, a, b)),
        _ => Ok(()),
    }
}

fn put_word(alloc: Global, stack: &mut Stack, word: &str) -> Result<(), NoMemory> {
    if let Some(value) = constant(word) {
        return put(alloc, stack, CExpr::Leaf(Value::Number(value)));
    }
    match part_of(word) {
        Part::One(sign) => put_one(alloc, stack, sign),
        Part::Two(op) => put_two(alloc, stack, op),
        Part::Choose => put_choice(alloc, stack),
        Part::Text(text) => put_text(alloc, stack, text),
    }
}

/// The tree of the words, or None where they leave no tree.
pub fn tree(alloc: Global, text: &str) -> Result<Option<Boxed<CExpr>>, NoMemory> {
    let mut stack = Vec::new(alloc);
    for word in text.split(' ') {
        put_word(alloc, &mut stack, word)?;
    }
    Ok(stack.pop())
}
