// Entries and what they name.
ghost use Rattle.std.specs.Prelude.{◌≡◌, ◌++◌, ◌∷◌, [], slice_get, codes, IfOk};
ghost use Rattle.judged.specs.declared.notes.Note.TheVariants.{Fault};
ghost use Rattle.std.specs.Option.{option_copied};
ghost use Rattle.java_entries.specs.Entries as s;

use crate::methods::is_named;
use j2k_base::{Name, NoMemory, Phase, Text};
use java_member_grammar::{JTypeHead, JTypeParams};
use java_name_faults::Later;
use java_type_names::{FileScope, World};
use java_unit_grammar::{JMember, JUnit};
use judged::{Note, add_fault, fault_at};
use sqlite_items::Items;
use std::alloc::Global;

/// How many methods an entry names.
#[derive(Clone, Copy)]
pub enum Count {
    None,
    One,
    Several,
}

fn count_if(is: bool, count: Count) -> Count
    ensures { result ≡ s.count_if is count }
{
    match count {
        Count::None if is => Count::One,
        Count::One if is => Count::Several,
        count => count,
    }
}

fn is_one(count: Count) -> bool
    ensures { result ≡ s.is_one count }
{
    match count {
        Count::One => true,
        _ => false,
    }
}

fn head_name(head: &JTypeHead) -> &Name
    ensures { result.now ≡ s.head_name head.entry.now }
{
    match head {
        JTypeHead::Class(_, _, name, ..) => name,
        JTypeHead::Interface(_, _, name, ..) => name,
        JTypeHead::Enum(_, _, name, ..) => name,
    }
}

/// The qualified name of a class, and a dot.
fn front(alloc: Global, home: &Text, name: &Name) -> Result<Text, NoMemory>
    ensures { IfOk result (λ front. front ≡ s.qualified home.now name.now ++ codes ".") }
{
    let mut text = Text::from_str(alloc, home.as_str())?;
    if home.len() != 0 {
        text.push_str(".")?;
    }
    text.push_str(name.as_str())?;
    text.push_str(".")?;
    Ok(text)
}

fn count_members(
    alloc: Global,
    world: &World,
    scope: &FileScope,
    params: &Option<JTypeParams>,
    entry: &Text,
    front: &Text,
    count: Count,
    xs: &[JMember],
) -> Result<Count, NoMemory>
    ensures { IfOk result (λ all. all ≡ s.count_members world.now scope.now params.now entry.now front.now count xs.now) }
{
    let mut all = count;
    for x in xs {
        let is = is_named(alloc, world, scope, params, entry, front, x)?;
        all = count_if(is, all);
    }
    Ok(all)
}

fn count_head(
    alloc: Global,
    world: &World,
    scope: &FileScope,
    entry: &Text,
    count: Count,
    head: &JTypeHead,
    xs: &[JMember],
) -> Result<Count, NoMemory>
    ensures { IfOk result (λ all. all ≡ s.count_members world.now scope.now (s.head_params head.now) entry.now (s.qualified scope.now.home (s.head_name head.now) ++ codes ".") count xs.now) }
{
    let front = front(alloc, &scope.home, head_name(head))?;
    match head {
        JTypeHead::Class(_, _, _, _, params, ..) => {
            count_members(alloc, world, scope, params, entry, &front, count, xs)
        }
        JTypeHead::Interface(_, _, _, _, params, _) => {
            count_members(alloc, world, scope, params, entry, &front, count, xs)
        }
        JTypeHead::Enum(..) => count_members(alloc, world, scope, &None, entry, &front, count, xs),
    }
}

#[tactic(auto, unfolding(crate::specs::Entries::count_type))]
fn count_type(
    alloc: Global,
    world: &World,
    scope: &FileScope,
    entry: &Text,
    count: Count,
    x: &JMember,
) -> Result<Count, NoMemory>
    ensures { IfOk result (λ all. all ≡ s.count_type world.now scope.now entry.now count x.now) }
{
    match x {
        JMember::Type(head, _, _, _, members, _) => {
            count_head(alloc, world, scope, entry, count, head, members.as_slice())
        }
        _ => Ok(count),
    }
}

fn count_types(
    alloc: Global,
    world: &World,
    scope: &FileScope,
    entry: &Text,
    count: Count,
    xs: &[JMember],
) -> Result<Count, NoMemory>
    ensures { IfOk result (λ all. all ≡ s.count_types world.now scope.now entry.now count xs.now) }
{
    let mut all = count;
    for x in xs {
        all = count_type(alloc, world, scope, entry, all, x)?;
    }
    Ok(all)
}

fn count_unit(
    alloc: Global,
    world: &World,
    entry: &Text,
    count: Count,
    scope: Option<&FileScope>,
    x: &JUnit,
) -> Result<Count, NoMemory>
    ensures { IfOk result (λ all. all ≡ s.count_unit world.now entry.now count (option_copied scope.entry) x.now) }
{
    match scope {
        None => Ok(count),
        Some(scope) => count_types(alloc, world, scope, entry, count, x.types.as_slice()),
    }
}

fn count_at(
    alloc: Global,
    world: &World,
    scopes: &[FileScope],
    entry: &Text,
    count: Count,
    unit: usize,
    x: &JUnit,
) -> Result<Count, NoMemory>
    ensures { IfOk result (λ all. all ≡ s.count_unit world.now entry.now count (slice_get scopes.now unit) x.now) }
{
    count_unit(alloc, world, entry, count, scopes.get(unit), x)
}

/// Whether an entry names exactly one method.
fn is_entry(
    alloc: Global,
    world: &World,
    scopes: &[FileScope],
    units: &[JUnit],
    entry: &Text,
) -> Result<bool, NoMemory>
    ensures { IfOk result (λ is. is ≡ s.is_entry world.now scopes.now entry.now units.now) }
{
    let mut all = Count::None;
    for (number, unit) in units.iter().enumerate() {
        all = count_at(alloc, world, scopes, entry, all, number, unit)?;
    }
    Ok(is_one(all))
}

/// The path of the settings.
fn settings(alloc: Global) -> Result<Text, NoMemory>
    ensures { IfOk result (λ path. path ≡ codes "j2k.toml") }
{
    Text::from_str(alloc, "j2k.toml")
}

fn put_in(alloc: Global, out: &mut Items<Note<Later>>, path: &Text) -> Result<(), NoMemory>
    ensures { IfOk result (λ u. out.new ≡ out.old ++ (Fault (s.entry_fault path.now) ∷ [])) }
{
    let fault = fault_at(alloc, Phase::N, 1, path, 0, 1, 1)?;
    add_fault(out, fault)
}

fn put_unless(alloc: Global, out: &mut Items<Note<Later>>, is: bool) -> Result<(), NoMemory>
    ensures { IfOk result (λ u. out.new ≡ out.old ++ s.note_unless is) }
{
    if is {
        return Ok(());
    }
    let path = settings(alloc)?;
    put_in(alloc, out, &path)
}

/// A fault at the start of the settings for each entry that doesn't name exactly one method that is static, isn't private and has
/// parameters of primitive types and String alone (N1). The scopes are those of the files.
pub fn entry_notes(
    alloc: Global,
    out: &mut Items<Note<Later>>,
    world: &World,
    scopes: &[FileScope],
    units: &[JUnit],
    entries: &[Text],
) -> Result<(), NoMemory>
    ensures { IfOk result (λ u. out.new ≡ out.old ++ s.entry_notes world.now scopes.now units.now entries.now) }
{
    for entry in entries {
        let is = is_entry(alloc, world, scopes, units, entry)?;
        put_unless(alloc, out, is)?;
    }
    Ok(())
}
