// Projects that are bound.
ghost use Rattle.std.specs.Prelude.{◌≡◌, ◌++◌, ◌↔◌, [], IfOk, IfErr, IfSome, IsNone};
ghost use Rattle.judged.specs.Notes.{IsFirst, faults_in, first_fault};
ghost use Rattle.java_names.specs.Binding as s;

use crate::facts::{Facts, facts_of};
use crate::faults::{first, notes, push_faults};
use j2k_base::{EntryNames, Fault, NoMemory, Stop, Text};
use java_classes::NameFault;
use java_unit_grammar::JUnit;
use sqlite_items::Items;
use std::alloc::Global;

/// A project whose names have no fault: its units, and what their names tell.
#[derive(Drop)]
pub struct Bound {
    pub units: Items<JUnit>,
    pub entries: EntryNames,
    pub facts: Facts,
}

/// A bound project is let go.
pub fn let_go(_bound: Bound) {}

/// What was found of a project.
#[derive(Drop)]
struct Found {
    facts: Facts,
    fault: Option<Fault>,
}

fn let_go_facts(_facts: Facts) {}

fn first_of(
    alloc: Global,
    faults: &[NameFault],
    facts: &Facts,
    units: &[JUnit],
    entries: &[Text],
) -> Result<Option<Fault>, NoMemory>
    requires facts { facts.now ≡ s.facts units.now }
    requires faults { faults.now ≡ s.name_faults units.now }
    ensures first { IfOk result (λ found. IfSome found (IsFirst (s.project_notes units.now entries.now))) }
    ensures none { IfOk result (λ found. IsNone found ↔ (faults_in (s.project_notes units.now entries.now) ≡ [])) }
    ensures told { IfOk result (λ found. found ≡ first_fault (s.project_notes units.now entries.now)) }
{
    let notes = notes(alloc, faults, facts, units, entries)?;
    first(alloc, notes.as_slice())
}

/// The first fault, by the faults of the imports.
fn fault_of(
    alloc: Global,
    faults: &mut Items<NameFault>,
    facts: &Facts,
    units: &[JUnit],
    entries: &[Text],
) -> Result<Option<Fault>, NoMemory>
    requires facts { facts.now ≡ s.facts units.now }
    requires faults { faults.now ≡ s.import_faults (s.world units.now) 0 units.now }
    ensures first { IfOk result (λ found. IfSome found (IsFirst (s.project_notes units.now entries.now))) }
    ensures none { IfOk result (λ found. IsNone found ↔ (faults_in (s.project_notes units.now entries.now) ≡ [])) }
    ensures told { IfOk result (λ found. found ≡ first_fault (s.project_notes units.now entries.now)) }
{
    push_faults(alloc, faults, facts, units)?;
    first_of(alloc, faults.as_slice(), facts, units, entries)
}

fn find(alloc: Global, units: &[JUnit], entries: &[Text]) -> Result<Found, NoMemory>
    ensures facts { IfOk result (λ found. found.facts ≡ s.facts units.now) }
    ensures first { IfOk result (λ found. IfSome found.fault (IsFirst (s.project_notes units.now entries.now))) }
    ensures none { IfOk result (λ found. IsNone found.fault ↔ (faults_in (s.project_notes units.now entries.now) ≡ [])) }
    ensures told { IfOk result (λ found. found.fault ≡ first_fault (s.project_notes units.now entries.now)) }
{
    let mut faults = Items::new(alloc);
    let facts = facts_of(alloc, &mut faults, units)?;
    match fault_of(alloc, &mut faults, &facts, units, entries) {
        Ok(fault) => Ok(Found { facts, fault }),
        Err(error) => {
            let_go_facts(facts);
            Err(error)
        }
    }
}

fn refused(alloc: Global, units: &[JUnit], entries: &[Text]) -> Result<Facts, Stop>
    ensures facts { IfOk result (λ facts. facts ≡ s.facts units.now) }
    ensures bound { IfOk result (λ facts. s.IsBound units.now entries.now) }
    ensures refused { IfErr result (s.IsRefusal units.now entries.now) }
{
    let Found { facts, fault } = find(alloc, units, entries)?;
    match fault {
        None => Ok(facts),
        Some(fault) => {
            let_go_facts(facts);
            Err(Stop::Fault(fault))
        }
    }
}

fn copied(alloc: Global, entries: &[Text]) -> Result<EntryNames, NoMemory>
    ensures { IfOk result (λ copy. copy ≡ entries.now) }
{
    let mut out = EntryNames::new(alloc);
    for entry in entries {
        out.push(Text::from_str(alloc, entry.as_str())?)?;
    }
    Ok(out)
}

fn let_go_units(_units: Items<JUnit>) {}

fn tables(alloc: Global, units: &[JUnit], entries: &[Text]) -> Result<(EntryNames, Facts), Stop>
    ensures entries { IfOk result (λ tables. tables.0 ≡ entries.now) }
    ensures facts { IfOk result (λ tables. tables.1 ≡ s.facts units.now) }
    ensures bound { IfOk result (λ tables. s.IsBound units.now entries.now) }
    ensures refused { IfErr result (s.IsRefusal units.now entries.now) }
{
    let copy = copied(alloc, entries)?;
    let facts = refused(alloc, units, entries)?;
    Ok((copy, facts))
}

/// Binds the names of a project: Ok exactly where no name has a fault, and else the first fault, of N0 to N6, by the bytes of the
/// path, the offset and the number of the code; want of memory apart.
pub fn bind(alloc: Global, units: Items<JUnit>, entries: &EntryNames) -> Result<Bound, Stop>
    ensures units { IfOk result (λ bound. bound.units ≡ units) }
    ensures entries { IfOk result (λ bound. bound.entries ≡ entries.now) }
    ensures facts { IfOk result (λ bound. bound.facts ≡ s.facts units) }
    ensures bound { IfOk result (λ bound. s.IsBound units entries.now) }
    ensures refused { IfErr result (s.IsRefusal units entries.now) }
{
    match tables(alloc, units.as_slice(), entries.as_slice()) {
        Ok((entries, facts)) => Ok(Bound {
            units,
            entries,
            facts,
        }),
        Err(stop) => {
            let_go_units(units);
            Err(stop)
        }
    }
}
