// Classes that depend on themselves.
ghost use Rattle.std.specs.Prelude.{◌≡◌, ◌++◌, IfOk};
ghost use Rattle.java_supertypes.specs.Supertypes as s;

use crate::heads::Heading;
use j2k_base::NoMemory;
use java_classes::{ClassRow, NameFault, put_if};
use java_cycles::{Edge, is_cyclic};
use java_type_names::Meant;
use sqlite_items::Items;
use std::alloc::Global;

fn push_edge(out: &mut Vec<Edge>, number: usize, class: Meant) -> Result<(), NoMemory>
    ensures { IfOk result (λ u. out.new.items ≡ out.old.items ++ s.edge_to number class) }
{
    if let Meant::Project(to) = class {
        out.push(Edge { from: number, to })?;
    }
    Ok(())
}

fn push_edges(out: &mut Vec<Edge>, number: usize, xs: &[Meant]) -> Result<(), NoMemory>
    ensures { IfOk result (λ u. out.new.items ≡ out.old.items ++ s.edges_to number xs.now) }
{
    for x in xs {
        push_edge(out, number, *x)?;
    }
    Ok(())
}

/// Which class of the project names which other as a supertype.
pub fn class_edges(alloc: Global, xs: &[Heading]) -> Result<Vec<Edge>, NoMemory>
    ensures { IfOk result (λ edges. edges.items ≡ s.class_edges xs.now) }
{
    let mut out = Vec::new(alloc);
    for (number, x) in xs.iter().enumerate() {
        push_edges(&mut out, number, x.above.as_slice())?;
    }
    Ok(out)
}

/// A fault at the name of each class that depends on itself (N3).
pub fn cycle_faults(
    alloc: Global,
    out: &mut Items<NameFault>,
    rows: &[ClassRow],
    edges: &[Edge],
) -> Result<(), NoMemory>
    ensures { IfOk result (λ u. out.new ≡ out.old ++ s.cycle_faults edges.now rows.now) }
{
    for (number, row) in rows.iter().enumerate() {
        let is = is_cyclic(alloc, edges, number)?;
        put_if(out, is, row.unit, row.at, 3)?;
    }
    Ok(())
}
