// From where a member may be named.
ghost use Rattle.std.specs.Prelude.{◌≡◌, IfOk, nat_eq};
ghost use Rattle.std.specs.List.{list_any};
ghost use Rattle.std.specs.Option.{option_copied};
ghost use Rattle.java_members.specs.Access as s;

use crate::classes::{Access, Class, Sort};
use crate::walks::{Reached, above};
use j2k_base::NoMemory;
use std::alloc::Global;

fn homes_are_same(x: Option<&Class>, y: Option<&Class>) -> bool
    ensures { result ≡ s.homes_are_same (option_copied x.entry) (option_copied y.entry) }
{
    match (x, y) {
        (Some(x), Some(y)) => x.home.as_bytes() == y.home.as_bytes(),
        _ => false,
    }
}

fn is_of_one_package(table: &[Class], a: usize, c: usize) -> bool
    ensures { result ≡ s.is_of_one_package table.now a c }
{
    homes_are_same(table.get(a), table.get(c))
}

fn has_class(rs: &[Reached], c: usize) -> bool
    ensures { result ≡ list_any (λ r. nat_eq r.class c) rs.now }
{
    rs.iter().any(|r| r.class == c)
}

fn is_above(
    alloc: Global,
    table: &[Class],
    steps: usize,
    a: usize,
    c: usize,
) -> Result<bool, NoMemory>
    ensures { IfOk result (λ is. is ≡ s.is_above table.now steps a c) }
{
    if a == c {
        return Ok(true);
    }
    let rs = above(alloc, table, Sort::Method, "", steps, a)?;
    Ok(has_class(rs.as_slice(), c))
}

/// Whether what class `c` declares with such a modifier may be named in class `a`, where what stands above `a` is looked for over
/// at most so many steps (JLS 6.6.1, 6.6.2).
pub fn is_accessible(
    alloc: Global,
    table: &[Class],
    steps: usize,
    a: usize,
    c: usize,
    access: Access,
) -> Result<bool, NoMemory>
    ensures { IfOk result (λ is. is ≡ s.is_accessible table.now steps a c access) }
{
    match access {
        Access::Public => Ok(true),
        Access::Protected => {
            if is_of_one_package(table, a, c) {
                return Ok(true);
            }
            is_above(alloc, table, steps, a, c)
        }
        Access::Package => Ok(is_of_one_package(table, a, c)),
        Access::Private => Ok(a == c),
    }
}
