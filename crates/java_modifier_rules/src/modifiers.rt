//! Lists of modifiers.

ghost use Rattle.std.specs.Prelude.{◌≡◌, Bool, nat_eq, nat_lt};
ghost use Rattle.java_member_grammar.specs.Modifiers as mo;
ghost use Rattle.java_modifier_rules.specs.Fits.{Parts, adds, allowed, clash, in_place};

use java_member_grammar::{JHome, JModifier, ModifierKind};

/// What modifiers stand before.
#[derive(Clone, Copy)]
pub enum Subject {
    Field,
    Method,
    Constructor,
    /// A field of an interface.
    Constant,
    InterfaceMethod,
    Class(JHome),
    Interface(JHome),
    Enum(JHome),
}

fn parted<'a>(mods: &'a [JModifier]) -> Option<(JModifier, &'a [JModifier])>
    ensures { Parts mods.now result }
{
    let (first, rest) = mods.split_first()?;
    Some((*first, rest))
}

/// The number that tells a kind from others.
fn number(kind: ModifierKind) -> usize
    ensures { result ≡ mo.number kind }
{
    match kind {
        ModifierKind::Public => 0,
        ModifierKind::Protected => 1,
        ModifierKind::Private => 2,
        ModifierKind::Abstract => 3,
        ModifierKind::Static => 4,
        ModifierKind::Final => 5,
        ModifierKind::Synchronized => 6,
        ModifierKind::Volatile => 7,
        ModifierKind::Default => 8,
        ModifierKind::Override(_) => 9,
    }
}

fn same_kind(kind: ModifierKind, other: ModifierKind) -> bool
    ensures { result ≡ nat_eq (mo.number kind) (mo.number other) }
{
    number(kind) == number(other)
}

/// Whether a modifier says who has access.
fn is_access(kind: ModifierKind) -> bool
    ensures { result ≡ nat_lt (mo.number kind) 3 }
{
    number(kind) < 3
}

/// Whether a modifier of the kind is there; no positions are compared.
#[tactic(auto, using(crate::proofs::Lists::lists))]
pub fn has(kind: ModifierKind, mods: &[JModifier]) -> bool
    ensures { result ≡ mo.has (mo.number kind) mods.now }
{
    let mut rest = mods;
    while let Some((first, behind)) = parted(rest) {
        if same_kind(kind, first.kind) {
            return true;
        }
        rest = behind;
    }
    false
}

#[tactic(auto, using(crate::proofs::Lists::lists))]
fn has_access(mods: &[JModifier]) -> bool
    ensures { result ≡ mo.has_access mods.now }
{
    let mut rest = mods;
    while let Some((first, behind)) = parted(rest) {
        if is_access(first.kind) {
            return true;
        }
        rest = behind;
    }
    false
}

/// Whether a modifier may not stand beside the others.
fn clashes(kind: ModifierKind, others: &[JModifier]) -> bool
    ensures { result ≡ clash kind others.now }
{
    has(kind, others) || is_access(kind) && has_access(others)
}

/// Whether no modifier stands twice, and at most one says who has access.
#[tactic(auto, using(crate::proofs::Lists::lists))]
fn differ(mods: &[JModifier]) -> bool
    ensures { result ≡ mo.differ mods.now }
{
    let mut rest = mods;
    while let Some((first, behind)) = parted(rest) {
        if clashes(first.kind, behind) {
            return false;
        }
        rest = behind;
    }
    true
}

/// Whether a place lets a modifier stand before each type in it.
fn adds(place: JHome, kind: ModifierKind) -> bool
    ensures { result ≡ adds place kind }
{
    match (place, kind) {
        (JHome::Class, ModifierKind::Static | ModifierKind::Protected | ModifierKind::Private) => {
            true
        }
        (JHome::Interface, ModifierKind::Static) => true,
        _ => false,
    }
}

fn of_field(kind: ModifierKind) -> bool
    ensures { result ≡ mo.of_field kind }
{
    matches!(
        kind,
        ModifierKind::Public
            | ModifierKind::Protected
            | ModifierKind::Private
            | ModifierKind::Static
            | ModifierKind::Final
            | ModifierKind::Volatile
    )
}

fn of_method(kind: ModifierKind) -> bool
    ensures { result ≡ mo.of_method kind }
{
    !matches!(kind, ModifierKind::Volatile | ModifierKind::Default)
}

fn of_constructor(kind: ModifierKind) -> bool
    ensures { result ≡ mo.of_constructor kind }
{
    matches!(
        kind,
        ModifierKind::Public | ModifierKind::Protected | ModifierKind::Private
    )
}

fn of_constant(kind: ModifierKind) -> bool
    ensures { result ≡ mo.of_constant kind }
{
    matches!(
        kind,
        ModifierKind::Public | ModifierKind::Static | ModifierKind::Final
    )
}

fn of_interface_method(kind: ModifierKind) -> bool
    ensures { result ≡ mo.of_interface_method kind }
{
    matches!(
        kind,
        ModifierKind::Public
            | ModifierKind::Abstract
            | ModifierKind::Static
            | ModifierKind::Default
            | ModifierKind::Override(_)
    )
}

fn of_top_class(kind: ModifierKind) -> bool
    ensures { result ≡ mo.of_top_class kind }
{
    matches!(
        kind,
        ModifierKind::Public | ModifierKind::Abstract | ModifierKind::Final
    )
}

fn of_top_interface(kind: ModifierKind) -> bool
    ensures { result ≡ mo.of_top_interface kind }
{
    matches!(kind, ModifierKind::Public | ModifierKind::Abstract)
}

fn of_top_enum(kind: ModifierKind) -> bool
    ensures { result ≡ mo.of_top_enum kind }
{
    matches!(kind, ModifierKind::Public)
}

fn in_place(place: JHome, kind: ModifierKind, top: bool) -> bool
    ensures { result ≡ in_place place kind top }
{
    adds(place, kind) || top
}

fn of_class(place: JHome, kind: ModifierKind) -> bool
    ensures { result ≡ mo.in_home place mo.of_top_class kind }
{
    in_place(place, kind, of_top_class(kind))
}

fn of_interface(place: JHome, kind: ModifierKind) -> bool
    ensures { result ≡ mo.in_home place mo.of_top_interface kind }
{
    in_place(place, kind, of_top_interface(kind))
}

fn of_enum(place: JHome, kind: ModifierKind) -> bool
    ensures { result ≡ mo.in_home place mo.of_top_enum kind }
{
    in_place(place, kind, of_top_enum(kind))
}

fn allows(subject: Subject, kind: ModifierKind) -> bool
    ensures { result ≡ allowed subject kind }
{
    match subject {
        Subject::Field => of_field(kind),
        Subject::Method => of_method(kind),
        Subject::Constructor => of_constructor(kind),
        Subject::Constant => of_constant(kind),
        Subject::InterfaceMethod => of_interface_method(kind),
        Subject::Class(place) => of_class(place, kind),
        Subject::Interface(place) => of_interface(place, kind),
        Subject::Enum(place) => of_enum(place, kind),
    }
}

#[tactic(auto, using(crate::proofs::Lists::lists))]
fn among(subject: Subject, mods: &[JModifier]) -> bool
    ensures { result ≡ mo.among (allowed subject) mods.now }
{
    let mut rest = mods;
    while let Some((first, behind)) = parted(rest) {
        if !allows(subject, first.kind) {
            return false;
        }
        rest = behind;
    }
    true
}

/// Whether each modifier may stand before the subject, and beside the others.
pub fn fit(subject: Subject, mods: &[JModifier]) -> bool
    ensures { result ≡ mo.fit (allowed subject) mods.now }
{
    among(subject, mods) && differ(mods)
}
