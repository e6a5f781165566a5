// The fields and methods that a class declares.
ghost use Rattle.std.specs.Prelude.{◌≡◌, ◌++◌, ◌∷◌, [], map, IfOk};
ghost use Rattle.std.specs.Option.{option_copied};
ghost use Rattle.java_member_tables.specs.Members as s;

use j2k_base::{Name, NoMemory};
use java_member_grammar::{JMemberHead, JModifier, ModifierKind};
use java_members::{Access, Member};
use java_statement_grammar::JDeclarator;
use java_unit_grammar::JMember;
use sqlite_items::Items;
use std::alloc::Global;

fn access_by(kind: ModifierKind) -> Option<Access>
    ensures { result ≡ s.access_by kind }
{
    match kind {
        ModifierKind::Public => Some(Access::Public),
        ModifierKind::Protected => Some(Access::Protected),
        ModifierKind::Private => Some(Access::Private),
        _ => None,
    }
}

fn access_in(mods: &[JModifier]) -> Access
    ensures { result ≡ s.access_in mods.now }
{
    match mods {
        [] => Access::Package,
        [x, more @ ..] => match access_by(x.kind) {
            Some(access) => access,
            None => access_in(more),
        },
    }
}

/// The access of a member by its modifiers (JLS 6.6.1, 9.3, 9.4).
fn access_of(is_interface: bool, mods: &[JModifier]) -> Access
    ensures { result ≡ s.access_of is_interface mods.now }
{
    if is_interface {
        Access::Public
    } else {
        access_in(mods)
    }
}

fn has_static(mods: &[JModifier]) -> bool
    ensures { result ≡ s.has_static mods.now }
{
    mods.iter().any(|x| x.kind == ModifierKind::Static)
}

fn push_member(
    alloc: Global,
    out: &mut Items<Member>,
    name: &Name,
    access: Access,
    is_static: bool,
) -> Result<(), NoMemory>
    ensures { IfOk result (λ u. out.new ≡ out.old ++ (record { name = name.now; access = access; is_static = is_static } ∷ [])) }
{
    let name = Name::from_str(alloc, name.as_str())?;
    out.push(Member {
        name,
        access,
        is_static,
    })?;
    Ok(())
}

fn push_names(
    alloc: Global,
    out: &mut Items<Member>,
    is_interface: bool,
    mods: &[JModifier],
    xs: &[JDeclarator],
) -> Result<(), NoMemory>
    ensures { IfOk result (λ u. out.new ≡ out.old ++ map (s.field is_interface mods.now) xs.now) }
{
    let access = access_of(is_interface, mods);
    let is_static = is_interface || has_static(mods);
    for x in xs {
        push_member(alloc, out, &x.name, access, is_static)?;
    }
    Ok(())
}

/// What stands of a member before its `;` or its block.
#[tactic(auto, unfolding(crate::specs::Members::head_in))]
fn head_of(x: &JMember) -> Option<&JMemberHead>
    ensures { option_copied result ≡ s.head_in x.entry.now }
{
    match x {
        JMember::Declared(head, ..) => Some(head),
        JMember::Bodied(head, ..) => Some(head),
        JMember::Type(..) => None,
    }
}

fn push_head_fields(
    alloc: Global,
    out: &mut Items<Member>,
    is_interface: bool,
    head: Option<&JMemberHead>,
) -> Result<(), NoMemory>
    ensures { IfOk result (λ u. out.new ≡ out.old ++ s.head_fields is_interface (option_copied head.entry)) }
{
    match head {
        Some(JMemberHead::Field(mods, x)) => push_names(
            alloc,
            out,
            is_interface,
            mods.as_slice(),
            x.names.as_slice(),
        ),
        _ => Ok(()),
    }
}

fn push_head_methods(
    alloc: Global,
    out: &mut Items<Member>,
    is_interface: bool,
    head: Option<&JMemberHead>,
) -> Result<(), NoMemory>
    ensures { IfOk result (λ u. out.new ≡ out.old ++ s.head_methods is_interface (option_copied head.entry)) }
{
    match head {
        Some(JMemberHead::Method(mods, _, _, name, ..)) => {
            let access = access_of(is_interface, mods.as_slice());
            push_member(alloc, out, name, access, has_static(mods.as_slice()))
        }
        _ => Ok(()),
    }
}

fn push_fields_of(
    alloc: Global,
    out: &mut Items<Member>,
    is_interface: bool,
    x: &JMember,
) -> Result<(), NoMemory>
    ensures { IfOk result (λ u. out.new ≡ out.old ++ s.head_fields is_interface (s.head_in x.now)) }
{
    push_head_fields(alloc, out, is_interface, head_of(x))
}

fn push_methods_of(
    alloc: Global,
    out: &mut Items<Member>,
    is_interface: bool,
    x: &JMember,
) -> Result<(), NoMemory>
    ensures { IfOk result (λ u. out.new ≡ out.old ++ s.head_methods is_interface (s.head_in x.now)) }
{
    push_head_methods(alloc, out, is_interface, head_of(x))
}

/// The fields of a class or an interface, in the order of the text.
pub(crate) fn push_fields(
    alloc: Global,
    out: &mut Items<Member>,
    is_interface: bool,
    xs: &[JMember],
) -> Result<(), NoMemory>
    ensures { IfOk result (λ u. out.new ≡ out.old ++ s.fields is_interface xs.now) }
{
    for x in xs {
        push_fields_of(alloc, out, is_interface, x)?;
    }
    Ok(())
}

/// The methods, in the order of the text.
pub(crate) fn push_methods(
    alloc: Global,
    out: &mut Items<Member>,
    is_interface: bool,
    xs: &[JMember],
) -> Result<(), NoMemory>
    ensures { IfOk result (λ u. out.new ≡ out.old ++ s.methods is_interface xs.now) }
{
    for x in xs {
        push_methods_of(alloc, out, is_interface, x)?;
    }
    Ok(())
}
