// Supertypes with their arguments.
ghost use Rattle.std.specs.Prelude.{◌≡◌, find, IfOk, OnOk};
ghost use Rattle.std.specs.List.{list_any};
ghost use Rattle.std.specs.Option.{option_copied};
ghost use Rattle.java_type_relations.specs.Supers as s;
ghost use Rattle.java_typed.specs.Reading.{shown};

use crate::copying::{Arguments, copy_type, copy_view, put};
use crate::heads::{bound_in, supers_in};
use j2k_base::NoMemory;
use java_type_relations::{Heads, Sought, Step};
use java_typed::{TType, TTypes, TypeView};
use sqlite_items::Items;
use std::alloc::Global;

fn is_sought(sought: Sought, x: &TType) -> bool
    ensures { result ≡ s.is_sought sought x.now }
{
    match (sought, x) {
        (Sought::Class(c), TType::Class(d, _)) => c == *d,
        (Sought::Variable(c, n), TType::Variable(d, m)) => c == *d && n == *m,
        _ => false,
    }
}

/// Two types of one class, or the same type parameter.
fn is_alike(a: &TType, b: &TType) -> bool
    ensures { result ≡ s.is_alike a.now b.now }
{
    match (a, b) {
        (TType::Class(c, _), TType::Class(d, _)) => *c == *d,
        (TType::Variable(c, n), TType::Variable(d, m)) => *c == *d && *n == *m,
        _ => false,
    }
}

fn first_sought(sought: Sought, level: &[TType]) -> Option<&TType>
    ensures { option_copied result ≡ find (s.is_sought sought) level.now }
{
    let mut rest = level;
    while let [x, more @ ..] = rest {
        if is_sought(sought, x) {
            return Some(x);
        }
        rest = more;
    }
    None
}

fn has_alike(found: &[TType], x: &TType) -> bool
    ensures { result ≡ list_any (s.is_alike x.now) found.now }
{
    let mut rest = found;
    while let [y, more @ ..] = rest {
        if is_alike(x, y) {
            return true;
        }
        rest = more;
    }
    false
}

/// One more type, where none like it stands there.
fn add(found: &mut TTypes, x: TType) -> Result<(), NoMemory>
    ensures { OnOk result (found.new ≡ s.added found.old x) }
{
    if !has_alike(found.as_slice(), &x) {
        found.push(x)?;
    }
    Ok(())
}

fn add_puts(
    alloc: Global,
    args: Arguments<'_>,
    supers: &[TType],
    found: &mut TTypes,
) -> Result<(), NoMemory>
    ensures { OnOk result (found.new ≡ s.added_puts args.entry.class args.entry.list.now found.old supers.now) }
{
    let mut rest = supers;
    while let [x, more @ ..] = rest {
        let x = put(alloc, args, x)?;
        add(found, x)?;
        rest = more;
    }
    Ok(())
}

fn add_bound(alloc: Global, bound: Option<&TType>, found: &mut TTypes) -> Result<(), NoMemory>
    ensures { OnOk result (found.new ≡ s.added_bound found.old (option_copied bound.entry)) }
{
    match bound {
        Some(x) => {
            let x = copy_type(alloc, x)?;
            add(found, x)
        }
        None => Ok(()),
    }
}

/// The direct supertypes of a type (JLS 4.10.2), but those that stand there already.
fn add_supers(alloc: Global, heads: &Heads, x: &TType, found: &mut TTypes) -> Result<(), NoMemory>
    ensures { OnOk result (found.new ≡ s.added_supers heads.now found.old x.now) }
{
    match x {
        TType::Class(class, list) => {
            let args = Arguments {
                class: *class,
                list: list.as_slice(),
            };
            add_puts(alloc, args, supers_in(heads, *class), found)
        }
        TType::Variable(class, place) => add_bound(alloc, bound_in(heads, *class, *place), found),
        _ => Ok(()),
    }
}

/// The direct supertypes of these types.
fn next_level(alloc: Global, heads: &Heads, level: &[TType]) -> Result<TTypes, NoMemory>
    ensures { IfOk result (λ r. r ≡ s.next_level heads.now level.now) }
{
    let mut found = Items::new(alloc);
    let mut rest = level;
    while let [x, more @ ..] = rest {
        add_supers(alloc, heads, x, &mut found)?;
        rest = more;
    }
    Ok(found)
}

fn step_up(alloc: Global, heads: &Heads, sought: Sought, level: &[TType]) -> Result<Step, NoMemory>
    ensures { IfOk result (λ r. r ≡ s.step heads.now sought level.now) }
{
    if level.is_empty() {
        return Ok(Step::End);
    }
    match first_sought(sought, level) {
        Some(x) => {
            let x = copy_type(alloc, x)?;
            Ok(Step::Found(x))
        }
        None => {
            let next = next_level(alloc, heads, level)?;
            Ok(Step::Next(next))
        }
    }
}

fn climb(
    alloc: Global,
    heads: &Heads,
    sought: Sought,
    from: TTypes,
) -> Result<Option<TType>, NoMemory>
    ensures { IfOk result (λ r. r ≡ s.climbed heads.now sought heads.now.steps from) }
{
    let mut level = from;
    let mut steps = heads.steps;
    while steps > 0 {
        match step_up(alloc, heads, sought, level.as_slice())? {
            Step::Found(x) => return Ok(Some(x)),
            Step::End => return Ok(None),
            Step::Next(next) => level = next,
        }
        steps -= 1;
    }
    Ok(None)
}

/// The first supertype of a type that is of a class or is a type parameter, the type itself before all others, and those
/// that take fewer steps before those that take more (JLS 4.10.2). None where it has none.
#[tactic(auto, unfolding(java_type_relations::specs::Supers::supertype))]
pub fn supertype(
    alloc: Global,
    heads: &Heads,
    sought: Sought,
    x: TypeView<'_>,
) -> Result<Option<TType>, NoMemory>
    ensures { IfOk result (λ r. r ≡ s.supertype heads.now sought (shown x.entry)) }
{
    let mut level = Items::new(alloc);
    let x = copy_view(alloc, x)?;
    level.push(x)?;
    climb(alloc, heads, sought, level)
}
