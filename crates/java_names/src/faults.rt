// The faults of the names of a project.
ghost use Rattle.std.specs.Prelude.{◌≡◌, ◌++◌, ◌↔◌, [], IfOk, IfSome, IsNone};
ghost use Rattle.judged.specs.Notes.{IsFirst, faults_in};
ghost use Rattle.judged.specs.Notes as j;
ghost use Rattle.java_names.specs.Binding as s;

use crate::facts::Facts;
use j2k_base::{Fault, NoMemory, Text};
use java_class_names::class_faults as member_faults;
use java_classes::{NameFault, class_faults};
use java_entries::entry_notes;
use java_head_names::head_faults;
use java_name_faults::{Later, name_notes};
use java_supertypes::{class_edges, cycle_faults};
use java_unit_grammar::JUnit;
use judged::{Note, copy_fault, first_fault};
use sqlite_items::Items;
use std::alloc::Global;

fn push_classes(alloc: Global, out: &mut Items<NameFault>, facts: &Facts) -> Result<(), NoMemory>
    ensures { IfOk result (λ u. out.new ≡ out.old ++ s.class_faults facts.now) }
{
    let rows = facts.world.rows.as_slice();
    class_faults(alloc, out, facts.world.packages.as_slice(), rows)?;
    let edges = class_edges(alloc, facts.headings.as_slice())?;
    cycle_faults(alloc, out, rows, edges.as_slice())
}

fn push_members(
    alloc: Global,
    out: &mut Items<NameFault>,
    facts: &Facts,
    units: &[JUnit],
) -> Result<(), NoMemory>
    ensures { IfOk result (λ u. out.new ≡ out.old ++ s.member_faults facts.now units.now) }
{
    let scopes = facts.scopes.as_slice();
    head_faults(alloc, out, &facts.world, scopes, units)?;
    member_faults(
        alloc,
        out,
        &facts.world,
        scopes,
        facts.headings.as_slice(),
        facts.table.as_slice(),
        units,
        facts.places.as_slice(),
    )
}

/// The faults of the names of classes and in them, behind those of imports.
pub(crate) fn push_faults(
    alloc: Global,
    out: &mut Items<NameFault>,
    facts: &Facts,
    units: &[JUnit],
) -> Result<(), NoMemory>
    ensures { IfOk result (λ u. out.new ≡ out.old ++ (s.class_faults facts.now ++ s.member_faults facts.now units.now)) }
{
    push_classes(alloc, out, facts)?;
    push_members(alloc, out, facts, units)
}

/// All that is at fault in a project, by the faults of its names.
pub(crate) fn notes(
    alloc: Global,
    faults: &[NameFault],
    facts: &Facts,
    units: &[JUnit],
    entries: &[Text],
) -> Result<Items<Note<Later>>, NoMemory>
    requires facts { facts.now ≡ s.facts units.now }
    requires faults { faults.now ≡ s.name_faults units.now }
    ensures { IfOk result (λ notes. notes ≡ s.project_notes units.now entries.now) }
{
    let mut notes = name_notes(alloc, units, faults)?;
    entry_notes(
        alloc,
        &mut notes,
        &facts.world,
        facts.scopes.as_slice(),
        units,
        entries,
    )?;
    Ok(notes)
}

/// The first fault, where there is one.
pub(crate) fn first(alloc: Global, notes: &[Note<Later>]) -> Result<Option<Fault>, NoMemory>
    ensures first { IfOk result (λ found. IfSome found (IsFirst notes.now)) }
    ensures none { IfOk result (λ found. IsNone found ↔ (faults_in notes.now ≡ [])) }
    ensures told { IfOk result (λ found. found ≡ j.first_fault notes.now) }
{
    match first_fault(notes) {
        None => Ok(None),
        Some(fault) => Ok(Some(copy_fault(alloc, fault)?)),
    }
}
