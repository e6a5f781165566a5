// The members of a class.
ghost use Rattle.std.specs.Prelude.{◌≡◌, ◌++◌, ◌∷◌, [], IfOk, map, slice_get};
ghost use Rattle.std.specs.List.{filter};
ghost use Rattle.std.specs.Option.{option_copied};
ghost use Rattle.java_members.specs.Members as s;
ghost use Rattle.java_members.specs.Numbers as n;

use crate::classes::{Access, Class, Declared, Member, Sort};
use crate::walks::{Reached, above, declared};
use j2k_base::NoMemory;
use std::alloc::Global;

/// A member that a class has by a name: the number of the class that declares it.
#[derive(Clone, Copy)]
pub struct Found {
    pub class: usize,
    pub is_static: bool,
    pub access: Access,
}

fn is_open(access: Access) -> bool
    ensures { result ≡ s.is_open access }
{
    match access {
        Access::Public | Access::Protected => true,
        Access::Package | Access::Private => false,
    }
}

fn is_of_package(access: Access) -> bool
    ensures { result ≡ s.is_of_package access }
{
    match access {
        Access::Package => true,
        _ => false,
    }
}

fn stays(sort: Sort, class: &Class, member: &Member) -> bool
    ensures { result ≡ s.stays sort class.now member.now }
{
    match sort {
        Sort::Field => false,
        Sort::Method => class.is_interface && member.is_static,
    }
}

fn passes(sort: Sort, is_near: bool, class: &Class, member: &Member) -> bool
    ensures { result ≡ s.passes sort is_near class.now member.now }
{
    !stays(sort, class, member)
        && (is_open(member.access) || (is_of_package(member.access) && is_near))
}

/// A member, where there is one.
fn push_there(out: &mut Vec<Found>, class: usize, member: Option<&Member>) -> Result<(), NoMemory>
    ensures { IfOk result (λ u. out.new.items ≡ out.old.items ++ map (s.found class) (n.if_there (option_copied member.entry))) }
{
    if let Some(member) = member {
        out.push(Found {
            class,
            is_static: member.is_static,
            access: member.access,
        })?;
    }
    Ok(())
}

/// A member, where there is one and it is inherited.
fn push_passing(
    out: &mut Vec<Found>,
    sort: Sort,
    r: Reached,
    class: &Class,
    member: Option<&Member>,
) -> Result<(), NoMemory>
    ensures { IfOk result (λ u. out.new.items ≡ out.old.items ++ map (s.found r.class) (filter (s.passes sort r.is_near class.now) (n.if_there (option_copied member.entry)))) }
{
    match member {
        Some(member) if passes(sort, r.is_near, class, member) => {
            push_there(out, r.class, Some(member))
        }
        _ => Ok(()),
    }
}

fn push_number(
    out: &mut Vec<Found>,
    class: usize,
    members: &[Member],
    number: usize,
) -> Result<(), NoMemory>
    ensures { IfOk result (λ u. out.new.items ≡ out.old.items ++ map (s.found class) (n.if_there (slice_get members.now number))) }
{
    push_there(out, class, members.get(number as usize))
}

fn push_passing_number(
    out: &mut Vec<Found>,
    sort: Sort,
    r: Reached,
    class: &Class,
    members: &[Member],
    number: usize,
) -> Result<(), NoMemory>
    ensures { IfOk result (λ u. out.new.items ≡ out.old.items ++ map (s.found r.class) (filter (s.passes sort r.is_near class.now) (n.if_there (slice_get members.now number)))) }
{
    push_passing(out, sort, r, class, members.get(number as usize))
}

#[tactic(auto, using(crate::proofs::Lists::appends))]
fn push_declared(
    out: &mut Vec<Found>,
    number: usize,
    members: &[Member],
    numbers: &[usize],
) -> Result<(), NoMemory>
    ensures { IfOk result (λ u. out.new.items ≡ out.old.items ++ map (s.found number) (n.picked members.now numbers.now)) }
{
    for n in numbers {
        push_number(out, number, members, *n)?;
    }
    Ok(())
}

#[tactic(auto, using(crate::proofs::Lists::appends))]
fn push_inherited_of(
    out: &mut Vec<Found>,
    sort: Sort,
    r: Reached,
    class: &Class,
    members: &[Member],
    numbers: &[usize],
) -> Result<(), NoMemory>
    ensures { IfOk result (λ u. out.new.items ≡ out.old.items ++ map (s.found r.class) (filter (s.passes sort r.is_near class.now) (n.picked members.now numbers.now))) }
{
    for n in numbers {
        push_passing_number(out, sort, r, class, members, *n)?;
    }
    Ok(())
}

#[tactic(auto, using(crate::proofs::Picked::of_name))]
fn push_own(
    out: &mut Vec<Found>,
    sort: Sort,
    name: &str,
    number: usize,
    class: Option<&Class>,
) -> Result<(), NoMemory>
    ensures { IfOk result (λ u. out.new.items ≡ out.old.items ++ s.own_by sort name.now number (option_copied class.entry)) }
{
    match class {
        None => Ok(()),
        Some(class) => {
            let own = declared(sort, class);
            push_declared(out, number, own.as_slice(), own.numbers(name))
        }
    }
}

#[tactic(auto, using(crate::proofs::Picked::of_name))]
fn push_inherited_by(
    out: &mut Vec<Found>,
    sort: Sort,
    name: &str,
    r: Reached,
    class: Option<&Class>,
) -> Result<(), NoMemory>
    ensures { IfOk result (λ u. out.new.items ≡ out.old.items ++ s.inherited_by sort name.now r (option_copied class.entry)) }
{
    match class {
        None => Ok(()),
        Some(class) => {
            let own = declared(sort, class);
            push_inherited_of(out, sort, r, class, own.as_slice(), own.numbers(name))
        }
    }
}

fn push_reached(
    out: &mut Vec<Found>,
    table: &[Class],
    sort: Sort,
    name: &str,
    r: Reached,
) -> Result<(), NoMemory>
    ensures { IfOk result (λ u. out.new.items ≡ out.old.items ++ s.inherited_by sort name.now r (slice_get table.now r.class)) }
{
    push_inherited_by(out, sort, name, r, table.get(r.class))
}

fn push_inherited(
    out: &mut Vec<Found>,
    table: &[Class],
    sort: Sort,
    name: &str,
    rs: &[Reached],
) -> Result<(), NoMemory>
    ensures { IfOk result (λ u. out.new.items ≡ out.old.items ++ s.inherited table.now sort name.now rs.now) }
{
    for r in rs {
        push_reached(out, table, sort, name, *r)?;
    }
    Ok(())
}

/// The members that the class of a number has by a name: those that it declares, then those that it inherits over at most so many
/// steps (JLS 8.2, 8.3, 8.4.8, 9.2).
pub fn members(
    alloc: Global,
    table: &[Class],
    steps: usize,
    sort: Sort,
    name: &str,
    class: usize,
) -> Result<Vec<Found>, NoMemory>
    ensures { IfOk result (λ out. out.items ≡ s.members table.now sort name.now steps class) }
{
    let mut out = Vec::new(alloc);
    push_own(&mut out, sort, name, class, table.get(class))?;
    let rs = above(alloc, table, sort, name, steps, class)?;
    push_inherited(&mut out, table, sort, name, rs.as_slice())?;
    Ok(out)
}
