// The names of types.
ghost use Rattle.std.specs.Prelude.{◌≡◌, ◌++◌, IfOk, map};
ghost use Rattle.java_name_uses.specs.Uses as s;

use crate::uses::{Naming, Sign, Uses, put_name, put_sign};
use j2k_base::NoMemory;
use java_tree::{JCreated, JDotted, JParam, JParams, JQualified, JType, JTypedParam};
use std::alloc::Global;

fn parts(alloc: Global, out: &mut Uses, xs: &[JDotted]) -> Result<(), NoMemory>
    ensures { IfOk result (λ u. out.new ≡ out.old ++ s.all (map s.part xs.now)) }
{
    for x in xs {
        put_name(alloc, out, Naming::TypePart, &x.name, x.at)?;
    }
    Ok(())
}

/// The name of a type (JLS 6.5.5).
pub fn type_name(alloc: Global, out: &mut Uses, x: &JQualified) -> Result<(), NoMemory>
    ensures { IfOk result (λ u. out.new ≡ out.old ++ s.type_name x.now) }
{
    put_name(alloc, out, Naming::Type, &x.name, x.at)?;
    parts(alloc, out, x.rest.as_slice())?;
    put_sign(out, Sign::TypeEnd)
}

/// The names in a type (JLS 4).
#[cycle(types)]
#[tactic(auto, using(crate::proofs::Parts::of_types))]
pub fn declared_type(alloc: Global, out: &mut Uses, x: &JType) -> Result<(), NoMemory>
    ensures { IfOk result (λ u. out.new ≡ out.old ++ s.type_uses x.now) }
{
    type_form(alloc, out, x)
}

#[cycle(types)]
fn type_form(alloc: Global, out: &mut Uses, x: &JType) -> Result<(), NoMemory>
    ensures { IfOk result (λ u. out.new ≡ out.old ++ s.type_form x.now) }
{
    match x {
        JType::Primitive(..) => Ok(()),
        JType::Class(name) => type_name(alloc, out, name),
        JType::Applied(name, _, args, ..) => {
            type_name(alloc, out, name)?;
            type_list(alloc, out, args.as_slice())
        }
        JType::Array(element, _) => declared_type(alloc, out, element.get()),
    }
}

/// The names in several types.
#[cycle(types)]
pub fn type_list(alloc: Global, out: &mut Uses, xs: &[JType]) -> Result<(), NoMemory>
    ensures { IfOk result (λ u. out.new ≡ out.old ++ s.all (map s.type_uses xs.now)) }
{
    for x in xs {
        declared_type(alloc, out, x)?;
    }
    Ok(())
}

/// The class of an object that is created (JLS 15.9).
pub(crate) fn created(alloc: Global, out: &mut Uses, x: &JCreated) -> Result<(), NoMemory>
    ensures { IfOk result (λ u. out.new ≡ out.old ++ s.created x.now) }
{
    match x {
        JCreated::Type(kind) => declared_type(alloc, out, kind),
        JCreated::Inferred(name, ..) => type_name(alloc, out, name),
    }
}

/// A parameter with its type (JLS 8.4.1).
pub fn parameter(alloc: Global, out: &mut Uses, x: &JTypedParam) -> Result<(), NoMemory>
    ensures { IfOk result (λ u. out.new ≡ out.old ++ s.parameter x.now) }
{
    declared_type(alloc, out, &x.kind)?;
    put_name(alloc, out, Naming::Variable, &x.name, x.at)
}

fn variables(alloc: Global, out: &mut Uses, xs: &[JParam]) -> Result<(), NoMemory>
    ensures { IfOk result (λ u. out.new ≡ out.old ++ s.all (map s.variable xs.now)) }
{
    for x in xs {
        put_name(alloc, out, Naming::Variable, &x.name, x.at)?;
    }
    Ok(())
}

/// Several parameters with their types.
pub fn parameters(alloc: Global, out: &mut Uses, xs: &[JTypedParam]) -> Result<(), NoMemory>
    ensures { IfOk result (λ u. out.new ≡ out.old ++ s.all (map s.parameter xs.now)) }
{
    for x in xs {
        parameter(alloc, out, x)?;
    }
    Ok(())
}

/// The parameters of a lambda (JLS 15.27.1).
pub(crate) fn lambda_parameters(alloc: Global, out: &mut Uses, x: &JParams) -> Result<(), NoMemory>
    ensures { IfOk result (λ u. out.new ≡ out.old ++ s.lambda_parameters x.now) }
{
    match x {
        JParams::One(x) => put_name(alloc, out, Naming::Variable, &x.name, x.at),
        JParams::Several(_, xs, ..) => variables(alloc, out, xs.as_slice()),
        JParams::Typed(_, xs, ..) => parameters(alloc, out, xs.as_slice()),
    }
}
