// Type parameters that depend on themselves.
ghost use Rattle.std.specs.Prelude.{◌≡◌, ◌++◌, IfOk};
ghost use Rattle.std.specs.Option.{option_copied};
ghost use Rattle.java_head_names.specs.Bounds as s;

use j2k_base::{Name, NoMemory};
use java_classes::{NameFault, put_if};
use java_cycles::{Edge, is_cyclic};
use java_member_grammar::{JBound, JTypeParam};
use java_tree::{JDotted, JType};
use sqlite_items::Items;
use std::alloc::Global;

fn simple<'a>(name: &'a Name, rest: &[JDotted]) -> Option<&'a Name>
    ensures { option_copied result ≡ s.simple name.entry.now rest.now }
{
    match rest {
        [] => Some(name),
        _ => None,
    }
}

/// The name of a type that is a name without dots.
#[tactic(auto, unfolding(crate::specs::Bounds::bound_name))]
fn bound_name(x: &JType) -> Option<&Name>
    ensures { option_copied result ≡ s.bound_name x.entry.now }
{
    match x {
        JType::Class(name) => simple(&name.name, name.rest.as_slice()),
        _ => None,
    }
}

fn number_of(xs: &[JTypeParam], name: &Name) -> Option<usize>
    ensures { result ≡ s.number_of xs.now name.now }
{
    for (number, x) in xs.iter().enumerate() {
        if x.name.as_bytes() == name.as_bytes() {
            return Some(number);
        }
    }
    None
}

fn numbered(xs: &[JTypeParam], name: Option<&Name>) -> Option<usize>
    ensures { result ≡ s.numbered xs.now (option_copied name.entry) }
{
    match name {
        None => None,
        Some(name) => number_of(xs, name),
    }
}

/// The type parameter that is the bound of one.
fn bound_number(xs: &[JTypeParam], bound: &Option<JBound>) -> Option<usize>
    ensures { result ≡ s.bound_number xs.now bound.now }
{
    match bound {
        None => None,
        Some(bound) => numbered(xs, bound_name(&bound.kind)),
    }
}

fn push_edge(out: &mut Vec<Edge>, number: usize, to: Option<usize>) -> Result<(), NoMemory>
    ensures { IfOk result (λ u. out.new.items ≡ out.old.items ++ s.edge_to number to) }
{
    if let Some(to) = to {
        out.push(Edge { from: number, to })?;
    }
    Ok(())
}

fn bound_edges(alloc: Global, xs: &[JTypeParam]) -> Result<Vec<Edge>, NoMemory>
    ensures { IfOk result (λ edges. edges.items ≡ s.bound_edges xs.now) }
{
    let mut out = Vec::new(alloc);
    for (number, x) in xs.iter().enumerate() {
        let to = bound_number(xs, &x.bound);
        push_edge(&mut out, number, to)?;
    }
    Ok(out)
}

fn push_each(
    alloc: Global,
    out: &mut Items<NameFault>,
    unit: usize,
    edges: &[Edge],
    xs: &[JTypeParam],
) -> Result<(), NoMemory>
    ensures { IfOk result (λ u. out.new ≡ out.old ++ s.cycles_from unit edges.now 0 xs.now) }
{
    for (number, x) in xs.iter().enumerate() {
        let is = is_cyclic(alloc, edges, number)?;
        put_if(out, is, unit, x.at, 3)?;
    }
    Ok(())
}

/// A fault at the name of each type parameter that depends on itself (N3).
pub(crate) fn bound_cycles(
    alloc: Global,
    out: &mut Items<NameFault>,
    unit: usize,
    xs: &[JTypeParam],
) -> Result<(), NoMemory>
    ensures { IfOk result (λ u. out.new ≡ out.old ++ s.bound_cycles unit xs.now) }
{
    let edges = bound_edges(alloc, xs)?;
    push_each(alloc, out, unit, edges.as_slice(), xs)
}
