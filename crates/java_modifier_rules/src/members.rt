//! Which modifiers stand before members and types (JLS 8.1.1, 8.3.1, 8.4.3, 8.8.3, 9.3, 9.4, and the
//! profile).

ghost use Rattle.std.specs.Prelude.{◌≡◌};
ghost use Rattle.java_member_grammar.specs.Modifiers as mo;
ghost use Rattle.java_modifier_rules.specs.Fits.{ValueParts, has_value, name_seen, overdone};

use crate::modifiers::{Subject, fit, has};
use j2k_base::Name;
use java_member_grammar::{JHome, JMemberHead, JModifier, JTypeHead, ModifierKind};
use java_statement_grammar::JDeclarator;

fn field_fits(mods: &[JModifier]) -> bool
    ensures { result ≡ mo.field_fits mods.now }
{
    fit(Subject::Field, mods)
        && !(has(ModifierKind::Final, mods) && has(ModifierKind::Volatile, mods))
}

fn same(left: bool, right: bool) -> bool
    ensures { result ≡ mo.same left right }
{
    left == right
}

/// Whether an abstract method has a modifier that asks for a body.
fn overdone(mods: &[JModifier]) -> bool
    ensures { result ≡ overdone mods.now }
{
    has(ModifierKind::Final, mods)
        || has(ModifierKind::Private, mods)
        || has(ModifierKind::Static, mods)
        || has(ModifierKind::Synchronized, mods)
}

fn method_fits(has_body: bool, mods: &[JModifier]) -> bool
    ensures { result ≡ mo.method_fits has_body mods.now }
{
    let is_abstract = has(ModifierKind::Abstract, mods);
    fit(Subject::Method, mods) && same(has_body, !is_abstract) && !(is_abstract && overdone(mods))
}

fn interface_method_fits(has_body: bool, mods: &[JModifier]) -> bool
    ensures { result ≡ mo.interface_method_fits has_body mods.now }
{
    let is_static = has(ModifierKind::Static, mods);
    let is_default = has(ModifierKind::Default, mods);
    let is_abstract = has(ModifierKind::Abstract, mods);
    fit(Subject::InterfaceMethod, mods)
        && same(has_body, is_static || is_default)
        && !(is_static && is_default)
        && !(is_abstract && (is_static || is_default))
}

fn parted<'a>(names: &'a [JDeclarator]) -> Option<(&'a JDeclarator, &'a [JDeclarator])>
    ensures { ValueParts names.now result }
{
    names.split_first()
}

fn has_value(name: &JDeclarator) -> bool
    ensures { result ≡ has_value name.now.value }
{
    match &name.value {
        Some(_) => true,
        None => false,
    }
}

/// Whether each name has a value.
#[tactic(auto, using(crate::proofs::Lists::lists))]
fn have_values(names: &[JDeclarator]) -> bool
    ensures { result ≡ mo.have_values names.now }
{
    let mut rest = names;
    while let Some((first, behind)) = parted(rest) {
        if !has_value(first) {
            return false;
        }
        rest = behind;
    }
    true
}

/// Whether the modifiers may stand before a type in the place.
pub fn type_fits(place: JHome, x: &JTypeHead) -> bool
    ensures { result ≡ mo.type_fits place x.now }
{
    match x {
        JTypeHead::Class(mods, _, _, _, _, _, _) => {
            let mods = mods.as_slice();
            fit(Subject::Class(place), mods)
                && !(has(ModifierKind::Abstract, mods) && has(ModifierKind::Final, mods))
        }
        JTypeHead::Interface(mods, _, _, _, _, _) => fit(
            Subject::Interface(place),
            mods.as_slice(),
        ),
        JTypeHead::Enum(mods, _, _, _, _) => fit(Subject::Enum(place), mods.as_slice()),
    }
}

fn is_named(name: Option<&Name>, other: &Name) -> bool
    ensures { result ≡ mo.is_named (name_seen name.entry) other.now }
{
    match name {
        Some(name) => name.as_str() == other.as_str(),
        None => false,
    }
}

/// Whether a member may stand in the class of a name, or in one that has none.
pub fn class_member_fits(name: Option<&Name>, has_body: bool, x: &JMemberHead) -> bool
    ensures { result ≡ mo.class_member_fits (name_seen name.entry) has_body x.now }
{
    match x {
        JMemberHead::Empty => !has_body,
        JMemberHead::Field(mods, _) => !has_body && field_fits(mods.as_slice()),
        JMemberHead::Method(mods, _, _, _, _, _, _) => method_fits(has_body, mods.as_slice()),
        JMemberHead::Constructor(mods, other, _, _, _) => {
            has_body && is_named(name, other) && fit(Subject::Constructor, mods.as_slice())
        }
        JMemberHead::Initializer(_) => has_body,
    }
}

/// Whether a member may stand in an interface.
pub fn interface_member_fits(has_body: bool, x: &JMemberHead) -> bool
    ensures { result ≡ mo.interface_member_fits has_body x.now }
{
    match x {
        JMemberHead::Empty => !has_body,
        JMemberHead::Field(mods, fields) => {
            !has_body
                && fit(Subject::Constant, mods.as_slice())
                && have_values(fields.names.as_slice())
        }
        JMemberHead::Method(mods, _, _, _, _, _, _) => {
            interface_method_fits(has_body, mods.as_slice())
        }
        JMemberHead::Constructor(_, _, _, _, _) => false,
        JMemberHead::Initializer(_) => false,
    }
}
