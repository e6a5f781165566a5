// The classes above a class, level by level.
ghost use Rattle.std.specs.Prelude.{◌≡◌, ◌++◌, ◌∷◌, [], true, ◌&&◌, IfOk, slice_get};
ghost use Rattle.std.specs.List.{list_any};
ghost use Rattle.std.specs.Option.{option_copied};
ghost use Rattle.java_members.specs.Lists as l;
ghost use Rattle.java_members.specs.Members as s;

use crate::classes::{Class, Declared, Sort};
use j2k_base::{NoMemory, Text};
use std::alloc::Global;

/// A class above one: whether all classes on the way to it stand in its package.
#[derive(Clone, Copy)]
pub struct Reached {
    pub class: usize,
    pub is_near: bool,
}

pub(crate) fn declared(sort: Sort, class: &Class) -> &Declared
    ensures { result.now ≡ s.declared sort class.now }
{
    match sort {
        Sort::Field => &class.fields,
        Sort::Method => &class.methods,
    }
}

fn hides(sort: Sort, name: &str, class: &Class) -> bool
    ensures { result ≡ s.hides sort name.now class.now }
{
    match sort {
        Sort::Field => class.fields.has(name),
        Sort::Method => false,
    }
}

fn same_reached(x: Reached, y: Reached) -> bool
    ensures { result ≡ s.same_reached x y }
{
    x.class == y.class && x.is_near == y.is_near
}

fn has_reached(xs: &[Reached], x: Reached) -> bool
    ensures { result ≡ list_any (s.same_reached x) xs.now }
{
    xs.iter().any(|y| same_reached(x, *y))
}

/// One more, unless it is there.
fn add(out: &mut Vec<Reached>, x: Reached) -> Result<(), NoMemory>
    ensures { IfOk result (λ u. out.new.items ≡ s.with_one out.old.items x) }
{
    if has_reached(out.as_slice(), x) {
        return Ok(());
    }
    out.push(x)?;
    Ok(())
}

fn home_is(home: &Text, class: Option<&Class>) -> bool
    ensures { result ≡ s.home_is home.now (option_copied class.entry) }
{
    match class {
        None => false,
        Some(class) => home.as_bytes() == class.home.as_bytes(),
    }
}

fn add_one(
    out: &mut Vec<Reached>,
    table: &[Class],
    is_near: bool,
    home: &Text,
    class: usize,
) -> Result<(), NoMemory>
    ensures { IfOk result (λ u. out.new.items ≡ s.with_one out.old.items (record { class = class; is_near = is_near && s.home_is home.now (slice_get table.now class) })) }
{
    let is_near = is_near && home_is(home, table.get(class));
    add(out, Reached { class, is_near })
}

fn add_above(
    out: &mut Vec<Reached>,
    table: &[Class],
    is_near: bool,
    home: &Text,
    xs: &[usize],
) -> Result<(), NoMemory>
    ensures { IfOk result (λ u. out.new.items ≡ s.with_above table.now out.old.items is_near home.now xs.now) }
{
    for x in xs {
        add_one(out, table, is_near, home, *x)?;
    }
    Ok(())
}

fn add_above_of(
    out: &mut Vec<Reached>,
    table: &[Class],
    sort: Sort,
    name: &str,
    is_near: bool,
    class: Option<&Class>,
) -> Result<(), NoMemory>
    ensures { IfOk result (λ u. out.new.items ≡ s.with_above_of table.now sort name.now out.old.items is_near (option_copied class.entry)) }
{
    match class {
        None => Ok(()),
        Some(class) => {
            if hides(sort, name, class) {
                return Ok(());
            }
            add_above(out, table, is_near, &class.home, class.above.as_slice())
        }
    }
}

fn add_next(
    out: &mut Vec<Reached>,
    table: &[Class],
    sort: Sort,
    name: &str,
    r: Reached,
) -> Result<(), NoMemory>
    ensures { IfOk result (λ u. out.new.items ≡ s.with_above_of table.now sort name.now out.old.items r.is_near (slice_get table.now r.class)) }
{
    add_above_of(out, table, sort, name, r.is_near, table.get(r.class))
}

/// The next level.
fn next(
    alloc: Global,
    table: &[Class],
    sort: Sort,
    name: &str,
    level: &[Reached],
) -> Result<Vec<Reached>, NoMemory>
    ensures { IfOk result (λ out. out.items ≡ s.next table.now sort name.now level.now) }
{
    let mut out = Vec::new(alloc);
    for r in level {
        add_next(&mut out, table, sort, name, *r)?;
    }
    Ok(out)
}

fn add_level(out: &mut Vec<Reached>, level: &[Reached]) -> Result<(), NoMemory>
    ensures { IfOk result (λ u. out.new.items ≡ out.old.items ++ level.now) }
{
    for r in level {
        out.push(*r)?;
    }
    Ok(())
}

fn first(
    alloc: Global,
    table: &[Class],
    sort: Sort,
    name: &str,
    class: usize,
) -> Result<Vec<Reached>, NoMemory>
    ensures { IfOk result (λ out. out.items ≡ s.next table.now sort name.now (record { class = class; is_near = true } ∷ [])) }
{
    let start = [Reached {
        class,
        is_near: true,
    }];
    next(alloc, table, sort, name, &start)
}

fn is_end(level: &Vec<Reached>) -> bool
    ensures { result ≡ l.is_nil level.now.items }
{
    match level.as_slice() {
        [] => true,
        _ => false,
    }
}

/// A level is taken, and the next one is answered.
fn climbed(
    alloc: Global,
    out: &mut Vec<Reached>,
    table: &[Class],
    sort: Sort,
    name: &str,
    level: &Vec<Reached>,
) -> Result<Vec<Reached>, NoMemory>
    ensures taken { IfOk result (λ above. out.new.items ≡ out.old.items ++ level.now.items) }
    ensures above { IfOk result (λ above. above.items ≡ s.next table.now sort name.now level.now.items) }
{
    add_level(out, level.as_slice())?;
    next(alloc, table, sort, name, level.as_slice())
}

/// The levels above a class, at most so many.
pub(crate) fn above(
    alloc: Global,
    table: &[Class],
    sort: Sort,
    name: &str,
    steps: usize,
    class: usize,
) -> Result<Vec<Reached>, NoMemory>
    ensures { IfOk result (λ out. out.items ≡ s.above table.now sort name.now steps class) }
{
    let mut out = Vec::new(alloc);
    let mut level = first(alloc, table, sort, name, class)?;
    for done in 0..steps {
        if is_end(&level) {
            return Ok(out);
        }
        level = climbed(alloc, &mut out, table, sort, name, &level)?;
    }
    Ok(out)
}
