// Signatures, and the methods and constructors that have one of an earlier one.
ghost use Rattle.std.specs.Prelude.{◌≡◌, ◌++◌, ◌∷◌, [], ℕ, List, take, IfOk};
ghost use Rattle.std.specs.List.{list_any};
ghost use Rattle.std.specs.Option.{option_copied};
ghost use Rattle.java_tables.specs.Names.{grouped, numbers_of};
ghost use Rattle.java_signatures.specs.Numbers as n;
ghost use Rattle.java_signatures.specs.Signatures as s;

use crate::erasure::{Piece, push_kinds, same_pieces};
use j2k_base::{Name, NoMemory};
use java_classes::{NameFault, put_if};
use java_member_grammar::{JMemberHead, JTypeParams};
use java_tables::{Groups, NamedRow, group};
use java_tree::{JTypedParam, Position};
use java_type_names::{FileScope, World};
use java_unit_grammar::JMember;
use sqlite_items::Items;
use std::alloc::Global;

/// What tells a method or a constructor of a class from another: its name, where that stands, and the erased types of its
/// parameters, one behind the other (JLS 8.4.2, 8.8.2).
#[derive(Drop)]
pub struct Signature {
    pub is_constructor: bool,
    pub name: Name,
    pub at: Position,
    pub kinds: Items<Piece>,
}

fn make_signature(
    alloc: Global,
    world: &World,
    scope: &FileScope,
    params: &Option<JTypeParams>,
    is_constructor: bool,
    name: &Name,
    at: Position,
    xs: &[JTypedParam],
) -> Result<Signature, NoMemory>
    ensures { IfOk result (λ x. x ≡ s.signature world.now scope.now params.now is_constructor name.now at xs.now) }
{
    let mut kinds = Items::new(alloc);
    push_kinds(alloc, &mut kinds, world, scope, params, xs)?;
    let name = Name::from_str(alloc, name.as_str())?;
    Ok(Signature {
        is_constructor,
        name,
        at,
        kinds,
    })
}

fn push_head(
    alloc: Global,
    out: &mut Items<Signature>,
    world: &World,
    scope: &FileScope,
    params: &Option<JTypeParams>,
    head: &JMemberHead,
) -> Result<(), NoMemory>
    ensures { IfOk result (λ u. out.new ≡ out.old ++ s.head_signature world.now scope.now params.now head.now) }
{
    match head {
        JMemberHead::Method(_, None, _, name, at, formals, _) => {
            let xs = formals.items.as_slice();
            out.push(make_signature(alloc, world, scope, params, false, name, *at, xs)?)?;
            Ok(())
        }
        JMemberHead::Constructor(_, name, at, formals, _) => {
            let xs = formals.items.as_slice();
            out.push(make_signature(alloc, world, scope, params, true, name, *at, xs)?)?;
            Ok(())
        }
        _ => Ok(()),
    }
}

#[tactic(auto, unfolding(crate::specs::Signatures::signature_in))]
fn push_member(
    alloc: Global,
    out: &mut Items<Signature>,
    world: &World,
    scope: &FileScope,
    params: &Option<JTypeParams>,
    x: &JMember,
) -> Result<(), NoMemory>
    ensures { IfOk result (λ u. out.new ≡ out.old ++ s.signature_in world.now scope.now params.now x.now) }
{
    match x {
        JMember::Declared(head, ..) => push_head(alloc, out, world, scope, params, head),
        JMember::Bodied(head, ..) => push_head(alloc, out, world, scope, params, head),
        JMember::Type(..) => Ok(()),
    }
}

fn push_members(
    alloc: Global,
    out: &mut Items<Signature>,
    world: &World,
    scope: &FileScope,
    params: &Option<JTypeParams>,
    xs: &[JMember],
) -> Result<(), NoMemory>
    ensures { IfOk result (λ u. out.new ≡ out.old ++ s.signatures world.now scope.now params.now xs.now) }
{
    for x in xs {
        push_member(alloc, out, world, scope, params, x)?;
    }
    Ok(())
}

fn agree(x: bool, y: bool) -> bool
    ensures { result ≡ s.agree x y }
{
    if x { y } else { !y }
}

fn same_signature(x: &Signature, y: &Signature) -> bool
    ensures { result ≡ s.same_signature x.now y.now }
{
    agree(x.is_constructor, y.is_constructor)
        && (x.name.as_bytes() == y.name.as_bytes()
            && same_pieces(x.kinds.as_slice(), y.kinds.as_slice()))
}

fn numbered(alloc: Global, xs: &[Signature]) -> Result<Vec<NamedRow>, NoMemory>
    ensures { IfOk result (λ rows. rows.items ≡ n.numbered 0 xs.now) }
{
    let mut out = Vec::new(alloc);
    for (number, x) in xs.iter().enumerate() {
        let name = Name::from_str(alloc, x.name.as_str())?;
        out.push(NamedRow { name, number })?;
    }
    Ok(out)
}

fn is_same_as(x: &Signature, y: Option<&Signature>) -> bool
    ensures { result ≡ n.is_same_by x.now (option_copied y.entry) }
{
    match y {
        None => false,
        Some(y) => same_signature(x, y),
    }
}

fn is_earlier(xs: &[Signature], number: usize, x: &Signature, other: usize) -> bool
    ensures { result ≡ n.is_earlier xs.now number x.now other }
{
    other < number && is_same_as(x, xs.get(other))
}

fn has_same(xs: &[Signature], number: usize, x: &Signature, others: &[usize]) -> bool
    ensures { result ≡ list_any (n.is_earlier xs.now number x.now) others.now }
{
    others.iter().any(|other| is_earlier(xs, number, x, *other))
}

/// Whether the same signature stands before the number, where the signatures are found by their names.
fn has_earlier(xs: &[Signature], groups: &Groups, number: usize, x: &Signature) -> bool
    requires { (name : List ℕ) → grouped groups.now name ≡ numbers_of name (n.numbered 0 xs.now) }
    ensures { result ≡ list_any (s.same_signature x.now) (take number xs.now) }
{
    has_same(xs, number, x, groups.named(x.name.as_str()))
}

fn push_seconds(
    out: &mut Items<NameFault>,
    unit: usize,
    groups: &Groups,
    xs: &[Signature],
) -> Result<(), NoMemory>
    requires { (name : List ℕ) → grouped groups.now name ≡ numbers_of name (n.numbered 0 xs.now) }
    ensures { IfOk result (λ u. out.new ≡ out.old ++ s.faults_from unit [] xs.now) }
{
    for (number, x) in xs.iter().enumerate() {
        let is_twice = has_earlier(xs, groups, number, x);
        put_if(out, is_twice, unit, x.at, 2)?;
    }
    Ok(())
}

fn push_faults(
    alloc: Global,
    out: &mut Items<NameFault>,
    unit: usize,
    xs: &[Signature],
) -> Result<(), NoMemory>
    ensures { IfOk result (λ u. out.new ≡ out.old ++ s.faults_from unit [] xs.now) }
{
    let rows = numbered(alloc, xs)?;
    let groups = group(alloc, rows.as_slice())?;
    push_seconds(out, unit, &groups, xs)
}

/// A fault at the name of each method or constructor of a class that has the name and the erased types of parameters of an
/// earlier one (N2).
pub fn signature_faults(
    alloc: Global,
    out: &mut Items<NameFault>,
    world: &World,
    unit: usize,
    scope: &FileScope,
    params: &Option<JTypeParams>,
    xs: &[JMember],
) -> Result<(), NoMemory>
    ensures { IfOk result (λ u. out.new ≡ out.old ++ s.signature_faults world.now unit scope.now params.now xs.now) }
{
    let mut found = Items::new(alloc);
    push_members(alloc, &mut found, world, scope, params, xs)?;
    push_faults(alloc, out, unit, found.as_slice())
}
