// Erased types.
ghost use Rattle.std.specs.Prelude.{◌≡◌, ◌++◌, ◌∷◌, [], IfOk};
ghost use Rattle.std.specs.Option.{option_copied};
ghost use Rattle.java_type_names.specs.Scopes as names;
ghost use Rattle.java_signatures.specs.Signatures as s;

use j2k_base::{Name, NoMemory};
use java_member_grammar::{JBound, JTypeParam, JTypeParams};
use java_supertypes::{is_parameter, place_of};
use java_tree::{JBrackets, JDotted, JQualified, JType, JTypedParam, Primitive};
use java_type_names::{FileScope, Meant, Place, World};
use sqlite_items::Items;
use std::alloc::Global;

/// A part of an erased type: an array's brackets stand before what it holds (JLS 4.6).
#[derive(Clone, Copy)]
pub enum Piece {
    Array,
    Primitive(Primitive),
    Class(Meant),
    /// Of a name that means no class.
    Unknown,
}

/// The number of Object in the library.
const OBJECT: u8 = 0;

fn index(x: Primitive) -> u8
    ensures { result ≡ s.index x }
{
    match x {
        Primitive::Byte => 0,
        Primitive::Short => 1,
        Primitive::Char => 2,
        Primitive::Int => 3,
        Primitive::Long => 4,
        Primitive::Boolean => 5,
    }
}

fn is_same(x: Meant, y: Meant) -> bool
    ensures { result ≡ names.is_same x y }
{
    match (x, y) {
        (Meant::Library(x), Meant::Library(y)) => x == y,
        (Meant::Project(x), Meant::Project(y)) => x == y,
        _ => false,
    }
}

fn same_piece(x: Piece, y: Piece) -> bool
    ensures { result ≡ s.same_piece x y }
{
    match (x, y) {
        (Piece::Array, Piece::Array) => true,
        (Piece::Primitive(x), Piece::Primitive(y)) => index(x) == index(y),
        (Piece::Class(x), Piece::Class(y)) => is_same(x, y),
        _ => false,
    }
}

pub(crate) fn same_pieces(xs: &[Piece], ys: &[Piece]) -> bool
    ensures { result ≡ s.same_pieces xs.now ys.now }
{
    match xs {
        [] => match ys {
            [] => true,
            [_y, _more @ ..] => false,
        },
        [x, xs @ ..] => match ys {
            [] => false,
            [y, ys @ ..] => same_piece(*x, *y) && same_pieces(xs, ys),
        },
    }
}

fn class_piece(place: Place) -> Piece
    ensures { result ≡ s.class_piece place }
{
    match place {
        Place::Class(class) => Piece::Class(class),
        _ => Piece::Unknown,
    }
}

#[tactic(auto, unfolding(crate::specs::Signatures::type_name))]
fn type_name(x: &JType) -> Option<&JQualified>
    ensures { option_copied result ≡ s.type_name x.entry.now }
{
    match x {
        JType::Class(name) => Some(name),
        JType::Applied(name, ..) => Some(name),
        _ => None,
    }
}

fn bound_name(bound: &Option<JBound>) -> Option<&JQualified>
    ensures { option_copied result ≡ s.bound_name bound.entry.now }
{
    match bound {
        None => None,
        Some(bound) => type_name(&bound.kind),
    }
}

/// The bound of the first type parameter of a name, where it is a name.
fn bound_of<'a>(name: &Name, params: &'a [JTypeParam]) -> Option<&'a JQualified>
    ensures { option_copied result ≡ s.bound_of name.now params.entry.now }
{
    match params {
        [] => None,
        [x, more @ ..] => {
            if x.name.as_bytes() == name.as_bytes() {
                bound_name(&x.bound)
            } else {
                bound_of(name, more)
            }
        }
    }
}

fn bound_by<'a>(name: &Name, rest: &[JDotted], params: &'a [JTypeParam]) -> Option<&'a JQualified>
    ensures { option_copied result ≡ s.bound_by name.now rest.now params.entry.now }
{
    match rest {
        [] => bound_of(name, params),
        _ => None,
    }
}

/// From a type parameter to its bound, over at most so many.
fn followed<'a>(params: &'a [JTypeParam], steps: usize, x: &'a JQualified) -> &'a JQualified
    ensures { result.now ≡ s.followed params.entry.now steps x.entry.now }
{
    if steps == 0 {
        return x;
    }
    match bound_by(&x.name, x.rest.as_slice(), params) {
        None => x,
        Some(bound) => followed(params, steps - 1, bound),
    }
}

fn declared(params: &Option<JTypeParams>) -> &[JTypeParam]
    ensures { result.now ≡ s.declared params.entry.now }
{
    match params {
        None => &[],
        Some(params) => params.items.as_slice(),
    }
}

fn piece_of(
    alloc: Global,
    world: &World,
    scope: &FileScope,
    params: &Option<JTypeParams>,
    x: &JQualified,
) -> Result<Piece, NoMemory>
    ensures { IfOk result (λ piece. piece ≡ s.piece_of world.now scope.now params.now x.now) }
{
    if is_parameter(params, &x.name) {
        return Ok(Piece::Class(Meant::Library(OBJECT)));
    }
    let place = place_of(alloc, world, scope, x)?;
    Ok(class_piece(place))
}

fn erased(
    alloc: Global,
    world: &World,
    scope: &FileScope,
    params: &Option<JTypeParams>,
    x: &JQualified,
) -> Result<Piece, NoMemory>
    ensures { IfOk result (λ piece. piece ≡ s.erased world.now scope.now params.now x.now) }
{
    let own = declared(params);
    let last = followed(own, own.len(), x);
    piece_of(alloc, world, scope, params, last)
}

fn push_erased(
    alloc: Global,
    out: &mut Items<Piece>,
    world: &World,
    scope: &FileScope,
    params: &Option<JTypeParams>,
    x: &JQualified,
) -> Result<(), NoMemory>
    ensures { IfOk result (λ u. out.new ≡ out.old ++ (s.erased world.now scope.now params.now x.now ∷ [])) }
{
    out.push(erased(alloc, world, scope, params, x)?)?;
    Ok(())
}

fn push_brackets(out: &mut Items<Piece>, xs: &[JBrackets]) -> Result<(), NoMemory>
    ensures { IfOk result (λ u. out.new ≡ out.old ++ s.arrays xs.entry.now) }
{
    let mut xs = xs;
    while let [_x, more @ ..] = xs {
        out.push(Piece::Array)?;
        xs = more;
    }
    Ok(())
}

/// The erasure of a type (JLS 4.6).
#[cycle(kinds)]
#[tactic(auto, using(crate::proofs::Parts::of_kinds))]
fn push_kind(
    alloc: Global,
    out: &mut Items<Piece>,
    world: &World,
    scope: &FileScope,
    params: &Option<JTypeParams>,
    x: &JType,
) -> Result<(), NoMemory>
    ensures { IfOk result (λ u. out.new ≡ out.old ++ s.kind world.now scope.now params.now x.now) }
{
    push_form(alloc, out, world, scope, params, x)
}

#[cycle(kinds)]
fn push_form(
    alloc: Global,
    out: &mut Items<Piece>,
    world: &World,
    scope: &FileScope,
    params: &Option<JTypeParams>,
    x: &JType,
) -> Result<(), NoMemory>
    ensures { IfOk result (λ u. out.new ≡ out.old ++ s.kind_form world.now scope.now params.now x.now) }
{
    match x {
        JType::Primitive(primitive, _) => {
            out.push(Piece::Primitive(*primitive))?;
            Ok(())
        }
        JType::Class(name) => push_erased(alloc, out, world, scope, params, name),
        JType::Applied(name, ..) => push_erased(alloc, out, world, scope, params, name),
        JType::Array(element, brackets) => {
            push_brackets(out, brackets.as_slice())?;
            push_kind(alloc, out, world, scope, params, element.get())
        }
    }
}

/// The erased types of parameters, one behind the other.
pub(crate) fn push_kinds(
    alloc: Global,
    out: &mut Items<Piece>,
    world: &World,
    scope: &FileScope,
    params: &Option<JTypeParams>,
    xs: &[JTypedParam],
) -> Result<(), NoMemory>
    ensures { IfOk result (λ u. out.new ≡ out.old ++ s.kinds world.now scope.now params.now xs.now) }
{
    for x in xs {
        push_kind(alloc, out, world, scope, params, &x.kind)?;
    }
    Ok(())
}
