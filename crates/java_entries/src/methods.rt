// Methods that an entry may name.
ghost use Rattle.std.specs.Prelude.{◌≡◌, ◌++◌, IfOk};
ghost use Rattle.std.specs.Str.{bytes_eq};
ghost use Rattle.std.specs.List.{list_all};
ghost use Rattle.java_entries.specs.Entries as s;

use j2k_base::{Name, NoMemory, Text};
use java_member_grammar::{JMemberHead, JModifier, JTypeParams, ModifierKind};
use java_supertypes::super_class;
use java_tree::{JType, JTypedParam};
use java_type_names::{FileScope, Meant, World};
use java_unit_grammar::JMember;
use std::alloc::Global;

fn has_static(mods: &[JModifier]) -> bool
    ensures { result ≡ s.has_static mods.now }
{
    mods.iter().any(|x| x.kind == ModifierKind::Static)
}

fn has_private(mods: &[JModifier]) -> bool
    ensures { result ≡ s.has_private mods.now }
{
    mods.iter().any(|x| x.kind == ModifierKind::Private)
}

fn is_open(mods: &[JModifier]) -> bool
    ensures { result ≡ s.is_open mods.now }
{
    has_static(mods) && !has_private(mods)
}

#[tactic(auto, unfolding(crate::specs::Entries::is_primitive))]
fn is_primitive(x: &JType) -> bool
    ensures { result ≡ s.is_primitive x.now }
{
    match x {
        JType::Primitive(..) => true,
        _ => false,
    }
}

/// The number of String in the library.
const STRING: u8 = 1;

fn is_string(class: Option<Meant>) -> bool
    ensures { result ≡ s.is_string class }
{
    match class {
        Some(Meant::Library(number)) => number == STRING,
        _ => false,
    }
}

fn is_simple(
    alloc: Global,
    world: &World,
    scope: &FileScope,
    params: &Option<JTypeParams>,
    x: &JTypedParam,
) -> Result<bool, NoMemory>
    ensures { IfOk result (λ is. is ≡ s.is_simple world.now scope.now params.now x.now) }
{
    if is_primitive(&x.kind) {
        return Ok(true);
    }
    let class = super_class(alloc, world, scope, params, &x.kind)?;
    Ok(is_string(class))
}

/// Whether parameters are of primitive types and String.
fn are_simple(
    alloc: Global,
    world: &World,
    scope: &FileScope,
    params: &Option<JTypeParams>,
    xs: &[JTypedParam],
) -> Result<bool, NoMemory>
    ensures { IfOk result (λ are. are ≡ list_all (s.is_simple world.now scope.now params.now) xs.now) }
{
    for x in xs {
        if !is_simple(alloc, world, scope, params, x)? {
            return Ok(false);
        }
    }
    Ok(true)
}

fn is_joined(alloc: Global, entry: &Text, front: &Text, name: &Name) -> Result<bool, NoMemory>
    ensures { IfOk result (λ is. is ≡ bytes_eq entry.now (front.now ++ name.now)) }
{
    let mut text = Text::from_str(alloc, front.as_str())?;
    text.push_str(name.as_str())?;
    Ok(entry.as_bytes() == text.as_bytes())
}

fn names(
    alloc: Global,
    world: &World,
    scope: &FileScope,
    params: &Option<JTypeParams>,
    entry: &Text,
    front: &Text,
    head: &JMemberHead,
) -> Result<bool, NoMemory>
    ensures { IfOk result (λ is. is ≡ s.names world.now scope.now params.now entry.now front.now head.now) }
{
    match head {
        JMemberHead::Method(mods, _, _, name, _, formals, _) => {
            if !is_joined(alloc, entry, front, name)? || !is_open(mods.as_slice()) {
                return Ok(false);
            }
            are_simple(alloc, world, scope, params, formals.items.as_slice())
        }
        _ => Ok(false),
    }
}

/// Whether an entry names the member of a class: the front is the class's qualified name and a dot.
#[tactic(auto, unfolding(crate::specs::Entries::is_named))]
pub(crate) fn is_named(
    alloc: Global,
    world: &World,
    scope: &FileScope,
    params: &Option<JTypeParams>,
    entry: &Text,
    front: &Text,
    x: &JMember,
) -> Result<bool, NoMemory>
    ensures { IfOk result (λ is. is ≡ s.is_named world.now scope.now params.now entry.now front.now x.now) }
{
    match x {
        JMember::Declared(head, ..) => names(alloc, world, scope, params, entry, front, head),
        JMember::Bodied(head, ..) => names(alloc, world, scope, params, entry, front, head),
        JMember::Type(..) => Ok(false),
    }
}
