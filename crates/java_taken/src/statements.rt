//! Statements of `main`.

ghost use Rattle.std.specs.Prelude.{◌≡◌, [], IfOk};
ghost use Rattle.java_taken.specs.Statements as s;
ghost use Rattle.java_taken.specs.Judged.{Judges};
ghost use Rattle.java_taken.specs.Judged as j;
ghost use Rattle.java_tree.specs.declared.exprs.JExpr.{out-JExpr};

use crate::expressions::expression;
use crate::judged::Refusal;
use crate::names::Names;
use crate::places::statement_at;
use crate::words::{OUT, PRINTLN, SYSTEM, is_variable};
use j2k_base::{Kind, Name, NoMemory};
use java_statement_grammar::{JDeclaration, JDeclarator, JSimple};
use java_tree::{JExpr, JType, Position, Primitive};
use java_typed::{
    ClassRef, MemberRef, TDeclarator, TExpr, TResult, TSimple, TStatement, TStatements, TType,
    TWritten,
};
use java_unit_grammar::JStatement;
use sqlite_items::{Boxed, Items};
use std::alloc::Global;

/// Whether a local may have the name, beside the project's classes, the parameter and the locals before it.
fn may_declare(classes: &Names, parameter: &Name, names: &Names, name: &Name) -> bool
    ensures { result ≡ s.may_declare classes.now parameter.now names.now name.now }
{
    is_variable(name.as_bytes())
        && !classes.contains(name.as_str())
        && name.as_bytes() != parameter.as_bytes()
        && !names.contains(name.as_str())
}

#[tactic(auto, unfolding(crate::specs::Statements::is_system))]
fn is_system(x: &JExpr) -> bool
    ensures { result ≡ s.is_system x.now }
{
    match x {
        JExpr::Name(name, _) => name.as_bytes() == SYSTEM.as_bytes(),
        _ => false,
    }
}

#[tactic(auto, unfolding(crate::specs::Statements::is_out))]
fn is_out(x: &JExpr) -> bool
    ensures { result ≡ s.is_out x.now }
{
    match x {
        JExpr::Field(left, _, name, _) => {
            is_system(left.get()) && name.as_bytes() == OUT.as_bytes()
        }
        _ => false,
    }
}

/// `int x = e;`
fn declares(
    alloc: Global,
    at: Position,
    name: Name,
    name_at: Position,
    value: Boxed<TExpr>,
) -> Result<Boxed<TStatement>, Refusal>
    ensures { Judges (j.Judged.Typed (s.declares at name name_at value)) result }
{
    let mut names = Items::new(alloc);
    names.push(TDeclarator {
        name,
        at: name_at,
        kind: TWritten {
            kind: TType::Number(Kind::Int),
            places: Items::new(alloc),
        },
        is_final: false,
        value: Some(value.into_inner()),
    })?;
    let made = TStatement::Simple(at, TSimple::Locals(names), Items::new(alloc));
    Ok(Boxed::new(alloc, made)?)
}

/// The row of `println` of an int among the members of System in the library.
const PRINTLN_INT: MemberRef = MemberRef {
    class: ClassRef::Library(16),
    place: 8,
};

/// `System.out.println(e);`
fn prints(
    alloc: Global,
    at: Position,
    name_at: Position,
    value: Boxed<TExpr>,
) -> Result<Boxed<TStatement>, Refusal>
    ensures { Judges (j.Judged.Typed (s.prints at name_at value)) result }
{
    let mut arguments = Items::new(alloc);
    arguments.push(value.into_inner())?;
    let call = TExpr::StaticCall {
        first: at,
        member: PRINTLN_INT,
        at: name_at,
        arguments,
        result: TResult::Void,
    };
    let made = TStatement::Simple(at, TSimple::Value(call), Items::new(alloc));
    Ok(Boxed::new(alloc, made)?)
}

/// A name that is declared with its value.
fn valued(
    alloc: Global,
    classes: &Names,
    parameter: &Name,
    names: &Names,
    at: Position,
    x: &JDeclarator,
) -> Result<Boxed<TStatement>, Refusal>
    ensures { Judges (s.valued classes.now parameter.now names.now at x.now x.now.value) result }
{
    let Some(value) = &x.value else {
        return Err(Refusal::Open(at));
    };
    if !may_declare(classes, parameter, names, &x.name) {
        return Err(Refusal::Open(x.at));
    }
    let value = expression(alloc, names, &value.tree)?;
    let name = Name::from_str(alloc, x.name.as_str())?;
    declares(alloc, at, name, x.at, value)
}

fn is_int(x: &JType) -> bool
    ensures { result ≡ s.is_int x.now }
{
    matches!(x, JType::Primitive(Primitive::Int, _))
}

fn declared(
    alloc: Global,
    classes: &Names,
    parameter: &Name,
    names: &Names,
    at: Position,
    x: &JDeclaration,
) -> Result<Boxed<TStatement>, Refusal>
    ensures { Judges (s.declared classes.now parameter.now names.now at x.now.is_final (s.is_int x.now.kind) x.now.names) result }
{
    if x.is_final.is_some() || !is_int(&x.kind) {
        return Err(Refusal::Open(at));
    }
    match x.names.as_slice() {
        [name] => valued(alloc, classes, parameter, names, at, name),
        _ => Err(Refusal::Open(at)),
    }
}

fn printed(
    alloc: Global,
    names: &Names,
    at: Position,
    name_at: Position,
    items: &[JExpr],
) -> Result<Boxed<TStatement>, Refusal>
    ensures { Judges (s.printed names.now at name_at items.now) result }
{
    match items {
        [item] => {
            let value = expression(alloc, names, item)?;
            prints(alloc, at, name_at, value)
        }
        _ => Err(Refusal::Open(at)),
    }
}

fn called(
    alloc: Global,
    names: &Names,
    at: Position,
    x: &JExpr,
) -> Result<Boxed<TStatement>, Refusal>
    ensures { Judges (s.called names.now at (out-JExpr x.now)) result }
{
    match x {
        JExpr::Method(left, _, name, name_at, _, items, ..)
            if is_out(left.get()) && name.as_bytes() == PRINTLN.as_bytes() => {
            printed(alloc, names, at, *name_at, items.as_slice())
        }
        _ => Err(Refusal::Open(at)),
    }
}

fn simple(
    alloc: Global,
    classes: &Names,
    parameter: &Name,
    names: &Names,
    at: Position,
    x: &JSimple,
) -> Result<Boxed<TStatement>, Refusal>
    ensures { Judges (s.simple_of classes.now parameter.now names.now at x.now) result }
{
    match x {
        JSimple::Declaration(x) => declared(alloc, classes, parameter, names, at, x),
        JSimple::Expression(x) => called(alloc, names, at, x),
        _ => Err(Refusal::Open(at)),
    }
}

/// The typed tree of a statement after the declarations of the names (JLS 14.4, 14.8).
#[tactic(auto, unfolding(crate::specs::Statements::statement))]
fn statement(
    alloc: Global,
    classes: &Names,
    parameter: &Name,
    names: &Names,
    x: &JStatement,
) -> Result<Boxed<TStatement>, Refusal>
    ensures { Judges (s.statement classes.now parameter.now names.now x.now) result }
{
    let at = statement_at(x);
    match x {
        JStatement::Simple(x, _, _) => simple(alloc, classes, parameter, names, at, x),
        _ => Err(Refusal::Open(at)),
    }
}

/// Declares the local of a declaration.
#[tactic(auto, using(crate::proofs::Loops::not_if), unfolding(crate::specs::Statements::names_after))]
fn declare(names: &mut Names, x: &TStatement) -> Result<(), NoMemory>
    ensures { IfOk result (λ u. names.new ≡ s.names_after names.old x.now) }
{
    match x {
        TStatement::Simple(_, TSimple::Locals(names_in), _) => match names_in.as_slice() {
            [declared] => {
                let _ = names.declare(declared.name.as_str())?;
                Ok(())
            }
            _ => Ok(()),
        },
        _ => Ok(()),
    }
}

/// The typed trees of the statements of a block (JLS 14.2).
pub(crate) fn statements(
    alloc: Global,
    classes: &Names,
    parameter: &Name,
    xs: &[JStatement],
) -> Result<TStatements, Refusal>
    ensures { Judges (s.statements classes.now parameter.now [] xs.now) result }
{
    let mut names = Names::new(alloc);
    let mut found = TStatements::new(alloc);
    for x in xs {
        let next = statement(alloc, classes, parameter, &names, x)?;
        declare(&mut names, next.get())?;
        found.push(next.into_inner())?;
    }
    Ok(found)
}
