// Cycles of supertypes.
ghost use Rattle.std.specs.Prelude.{◌≡◌, ◌++◌, IfOk, slice_get};
ghost use Rattle.java_cycles.specs.Cycles as s;

use j2k_base::NoMemory;
use std::alloc::Global;

/// The class of the number `from` names the class of the number `to` as a supertype.
#[derive(Clone, Copy, Debug)]
pub struct Edge {
    pub from: usize,
    pub to: usize,
}

/// Takes the edges from a class out: their ends go to those that are found.
fn take_ends(
    alloc: Global,
    a: usize,
    edges: &[Edge],
    found: &mut Vec<usize>,
) -> Result<Vec<Edge>, NoMemory>
    ensures rest { IfOk result (λ rest. rest.items ≡ s.others a edges.now) }
    ensures found { IfOk result (λ rest. found.new.items ≡ found.old.items ++ s.ends_of a edges.now) }
{
    let mut rest = Vec::new(alloc);
    for e in edges {
        if e.from == a {
            found.push(e.to)?;
        } else {
            rest.push(*e)?;
        }
    }
    Ok(rest)
}

fn at(found: &Vec<usize>, done: usize) -> Option<usize>
    ensures { result ≡ slice_get found.now.items done }
{
    found.as_slice().get(done).copied()
}

/// The classes on which one depends.
fn below(alloc: Global, edges: &[Edge], a: usize) -> Result<Vec<usize>, NoMemory>
    ensures { IfOk result (λ found. found.items ≡ s.below edges.now a) }
{
    let mut found = Vec::new(alloc);
    let mut left = take_ends(alloc, a, edges, &mut found)?;
    for done in 0..edges.len() {
        match at(&found, done) {
            None => return Ok(found),
            Some(next) => left = take_ends(alloc, next, left.as_slice(), &mut found)?,
        }
    }
    Ok(found)
}

/// Whether a class depends on itself (JLS 8.1.4, 9.1.3).
pub fn is_cyclic(alloc: Global, edges: &[Edge], a: usize) -> Result<bool, NoMemory>
    ensures { IfOk result (λ is. is ≡ s.is_cyclic edges.now a) }
{
    let found = below(alloc, edges, a)?;
    Ok(found.as_slice().contains(&a))
}
