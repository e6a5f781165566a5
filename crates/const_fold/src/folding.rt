// Trees. Each tree appends its text to one list of units, so that a fold takes time by the tree and the text alone.

ghost use Rattle.std.specs.Prelude.{◌≡◌, ◌≤◌, ◌++◌, if◌then◌else◌, length, take, drop, Some, IfOk, OnOk, vec_len};
ghost use Rattle.std.specs.Fmt.{signed_decimal};
ghost use Rattle.const_fold.specs.Constants.{cast_value, plus_value, minus_value, flip_value, not_value, text_of, same_text, value_of};
ghost use Rattle.const_fold.specs.Parts.{HasPart, on_part, before_right, joined_part, texts_part, texts_units, two_part, two_units};
ghost use Rattle.const_fold.specs.Parts as spec;

use crate::casts::{cast, flip, minus, not, plus};
use crate::choosing::chosen;
use crate::operators::fold2;
use j2k_base::{CExpr, Const, Kind, NoMemory, Op2, Units, Value};
use std::alloc::Global;

// What a tree gave beside the units that it appended: a text is those units.
#[derive(Clone, Copy, Debug, PartialEq, Eq)]
pub(crate) enum Part {
    Number(Const),
    Text,
}

fn push_ascii(text: &[u8], units: &mut Vec<u16>) -> Result<(), NoMemory>
    ensures { OnOk result (units.new.items ≡ units.old.items ++ text.now) }
{
    for byte in text {
        units.push(u16::from(*byte))?;
    }
    Ok(())
}

fn push_decimal(alloc: Global, x: i64, units: &mut Vec<u16>) -> Result<(), NoMemory>
    ensures { OnOk result (units.new.items ≡ units.old.items ++ signed_decimal x) }
{
    let text = format!(in alloc; "{x}")?;
    push_ascii(text.as_bytes(), units)
}

fn push_text(alloc: Global, c: Const, units: &mut Vec<u16>) -> Result<(), NoMemory>
    ensures { OnOk result (units.new.items ≡ units.old.items ++ text_of c) }
{
    match c {
        Const::Byte(x) => push_decimal(alloc, i64::from(x), units),
        Const::Short(x) => push_decimal(alloc, i64::from(x), units),
        Const::Char(unit) => {
            units.push(unit)?;
            Ok(())
        }
        Const::Int(x) => push_decimal(alloc, i64::from(x), units),
        Const::Long(x) => push_decimal(alloc, x, units),
        Const::Bool(true) => push_ascii(b"true", units),
        Const::Bool(false) => push_ascii(b"false", units),
    }
}

fn cast_part(to: Kind, part: Option<Part>) -> Option<Part>
    ensures { result ≡ on_part (cast_value to) part }
{
    match part {
        Some(Part::Number(Const::Bool(_))) | Some(Part::Text) | None => None,
        Some(Part::Number(a)) => Some(Part::Number(cast(to, a))),
    }
}

fn number_part(a: Option<Const>) -> Option<Part>
    ensures { result ≡ spec.as_part a }
{
    match a {
        Some(a) => Some(Part::Number(a)),
        None => None,
    }
}

fn plus_part(part: Option<Part>) -> Option<Part>
    ensures { result ≡ on_part plus_value part }
{
    match part {
        Some(Part::Number(a)) => number_part(plus(a)),
        _ => None,
    }
}

fn minus_part(part: Option<Part>) -> Option<Part>
    ensures { result ≡ on_part minus_value part }
{
    match part {
        Some(Part::Number(a)) => number_part(minus(a)),
        _ => None,
    }
}

fn flip_part(part: Option<Part>) -> Option<Part>
    ensures { result ≡ on_part flip_value part }
{
    match part {
        Some(Part::Number(a)) => number_part(flip(a)),
        _ => None,
    }
}

fn not_part(part: Option<Part>) -> Option<Part>
    ensures { result ≡ on_part not_value part }
{
    match part {
        Some(Part::Number(a)) => number_part(not(a)),
        _ => None,
    }
}

fn chosen_part(p: bool, left: Option<Part>, right: Option<Part>) -> Option<Part>
    ensures { result ≡ spec.chosen_part p left right }
{
    match left {
        Some(Part::Number(a)) => match right {
            Some(Part::Number(b)) => number_part(chosen(p, a, b)),
            _ => None,
        },
        Some(Part::Text) => match right {
            Some(Part::Text) => Some(Part::Text),
            _ => None,
        },
        None => None,
    }
}

fn leaf_onto(value: &Value, units: &mut Vec<u16>) -> Result<Option<Part>, NoMemory>
    ensures { IfOk result (λ part. HasPart (Some value.now) units.old.items units.new.items part) }
{
    match value {
        Value::Number(c) => Ok(Some(Part::Number(*c))),
        Value::Text(text) => {
            units.extend_from_slice(text.as_slice())?;
            Ok(Some(Part::Text))
        }
    }
}

// The text of a number before a right operand that may be a text.
fn push_before(alloc: Global, op: Op2, left: Part, units: &mut Vec<u16>) -> Result<(), NoMemory>
    ensures { OnOk result (units.new.items ≡ before_right left op units.old.items) }
{
    match left {
        Part::Number(c) => match op {
            Op2::Add => push_text(alloc, c, units),
            _ => Ok(()),
        },
        Part::Text => Ok(()),
    }
}

fn same_units(units: &[u16], start: usize, middle: usize) -> bool
    requires ordered { start ≤ middle }
    requires within { middle ≤ length units.now }
    ensures { result ≡ same_text (drop start (take middle units.now)) (drop middle units.now) }
{
    let left = &units[start..middle];
    let right = &units[middle..];
    left == right
}

fn join_texts(op: Op2, start: usize, middle: usize, units: &mut Vec<u16>) -> Option<Part>
    requires ordered { start ≤ middle }
    requires within { middle ≤ vec_len units.old }
    ensures part { result ≡ texts_part op (drop start (take middle units.old.items)) (drop middle units.old.items) }
    ensures units { units.new.items ≡ texts_units op start units.old.items }
{
    match op {
        Op2::Add => Some(Part::Text),
        Op2::Eq => {
            let same = same_units(units.as_slice(), start, middle);
            units.truncate(start);
            Some(Part::Number(Const::Bool(same)))
        }
        Op2::Ne => {
            let same = same_units(units.as_slice(), start, middle);
            units.truncate(start);
            Some(Part::Number(Const::Bool(!same)))
        }
        _ => None,
    }
}

fn joined(op: Op2) -> Option<Part>
    ensures { result ≡ joined_part op }
{
    match op {
        Op2::Add => Some(Part::Text),
        _ => None,
    }
}

// Two operands, where the left one's units begin at `start` and the right one's at `middle`.
fn join(
    alloc: Global,
    op: Op2,
    left: Part,
    right: Part,
    start: usize,
    middle: usize,
    units: &mut Vec<u16>,
) -> Result<Option<Part>, NoMemory>
    requires ordered { start ≤ middle }
    requires within { middle ≤ vec_len units.old }
    ensures part { IfOk result (λ part. part ≡ two_part left right op start middle units.old.items) }
    ensures units { OnOk result (units.new.items ≡ two_units left right op start units.old.items) }
{
    match left {
        Part::Number(a) => match right {
            Part::Number(b) => {
                units.truncate(start);
                Ok(number_part(fold2(op, a, b)))
            }
            Part::Text => Ok(joined(op)),
        },
        Part::Text => match right {
            Part::Number(b) => {
                push_text(alloc, b, units)?;
                Ok(joined(op))
            }
            Part::Text => Ok(join_texts(op, start, middle, units)),
        },
    }
}

fn truncate_if(cut: bool, len: usize, units: &mut Vec<u16>)
    ensures { units.new.items ≡ (if cut then take len units.old.items else units.old.items) }
{
    if cut {
        units.truncate(len);
    }
}

// The value of a tree, whose text is appended.
fn fold_onto(alloc: Global, e: &CExpr, units: &mut Vec<u16>) -> Result<Option<Part>, NoMemory>
    ensures { IfOk result (λ part. HasPart (value_of e.now) units.old.items units.new.items part) }
{
    match e {
        CExpr::Leaf(value) => leaf_onto(value, units),
        CExpr::Cast(to, a) => Ok(cast_part(*to, fold_onto(alloc, a.get(), units)?)),
        CExpr::Plus(a) => Ok(plus_part(fold_onto(alloc, a.get(), units)?)),
        CExpr::Minus(a) => Ok(minus_part(fold_onto(alloc, a.get(), units)?)),
        CExpr::Flip(a) => Ok(flip_part(fold_onto(alloc, a.get(), units)?)),
        CExpr::Not(a) => Ok(not_part(fold_onto(alloc, a.get(), units)?)),
        CExpr::Two(op, a, b) => {
            let start = units.len();
            let Some(left) = fold_onto(alloc, a.get(), units)? else {
                return Ok(None);
            };
            push_before(alloc, *op, left, units)?;
            let middle = units.len();
            let Some(right) = fold_onto(alloc, b.get(), units)? else {
                return Ok(None);
            };
            join(alloc, *op, left, right, start, middle, units)
        }
        CExpr::Choose(c, a, b) => {
            let Some(Part::Number(Const::Bool(p))) = fold_onto(alloc, c.get(), units)? else {
                return Ok(None);
            };
            let start = units.len();
            let left = fold_onto(alloc, a.get(), units)?;
            truncate_if(!p, start, units);
            let middle = units.len();
            let right = fold_onto(alloc, b.get(), units)?;
            truncate_if(p, middle, units);
            Ok(chosen_part(p, left, right))
        }
    }
}

/// The value of a constant expression (JLS 15.28). None exactly where it has none.
pub fn fold(alloc: Global, e: &CExpr) -> Result<Option<Value>, NoMemory>
    ensures { IfOk result (λ value. value ≡ value_of e.now) }
{
    let mut units = Vec::new(alloc);
    match fold_onto(alloc, e, &mut units)? {
        Some(Part::Number(c)) => Ok(Some(Value::Number(c))),
        Some(Part::Text) => Ok(Some(Value::Text(Units::from_vec(units)))),
        None => Ok(None),
    }
}
