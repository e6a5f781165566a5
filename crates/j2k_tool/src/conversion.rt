// The Kotlin of a typed tree, part by part.
ghost use Rattle.std.specs.Prelude.{◌≡◌, map, option_map, IfOk};
ghost use Rattle.java_typed.specs.declared.exprs.TExpr.{out-TExpr};
ghost use Rattle.meanings.specs.Taken as t;
ghost use Rattle.meanings.specs.Convert.{number_of as number_by, expression_of as expression_by, statement_of as statement_by, main_of as main_by, class_of as class_by, file_of as file_by};

use j2k_base::{Const, Kind, Name, NoMemory, Op2, Value};
use java_typed::{
    Access, ClassRef, MemberRef, TBlock, TClass, TDeclarator, TExpr, TMethod, TParam, TSimple,
    TStatement, TType, TUnit,
};
use meanings::kotlin::{KClass, KExpr, KFile, KMain, KStmt, KStmts};
use meanings::names::Names;
use meanings::operators::Operator;
use sqlite_items::Boxed;
use std::alloc::Global;

/// A unit has the same package.
pub fn file_of(alloc: Global, unit: &TUnit) -> Result<KFile, NoMemory>
    ensures { IfOk result (λ made. made ≡ file_by unit.now) }
{
    let package = names_of(alloc, unit.package.as_slice())?;
    let class = class_in(alloc, unit.classes.as_slice())?;
    Ok(KFile { package, class })
}

fn names_of(alloc: Global, names: &[Name]) -> Result<Names, NoMemory>
    ensures { IfOk result (λ made. made ≡ names.now) }
{
    let mut made = Names::new(alloc);
    for name in names {
        made.push(Name::from_str(alloc, name.as_str())?)?;
    }
    Ok(made)
}

fn class_in(alloc: Global, classes: &[TClass]) -> Result<Option<KClass>, NoMemory>
    ensures { IfOk result (λ made. made ≡ option_map class_by (t.class_among classes.now)) }
{
    match classes {
        [] => Ok(None),
        [class, ..] => Ok(Some(class_of(alloc, class)?)),
    }
}

/// A class whose one member is static has that member in its companion.
fn class_of(alloc: Global, class: &TClass) -> Result<KClass, NoMemory>
    ensures { IfOk result (λ made. made ≡ class_by (t.class_by class.now)) }
{
    let name = Name::from_str(alloc, class.name.as_str())?;
    let main = main_in(alloc, class.methods.as_slice())?;
    Ok(KClass { name, main })
}

fn main_in(alloc: Global, methods: &[TMethod]) -> Result<Option<KMain>, NoMemory>
    ensures { IfOk result (λ made. made ≡ option_map main_by (t.main_in methods.now)) }
{
    match methods {
        [method] if has_main_head(method) => {
            main_with(alloc, method.params.as_slice(), &method.block)
        }
        _ => Ok(None),
    }
}

/// The head of `main` but for its parameter (JLS 12.1.4).
fn has_main_head(method: &TMethod) -> bool
    ensures { result ≡ t.has_main_head method.now }
{
    method.name.as_bytes() == "main".as_bytes()
        && matches!(method.modifiers.access, Access::Public)
        && method.modifiers.is_static
        && method.result.is_none()
}

fn main_with(
    alloc: Global,
    params: &[TParam],
    block: &Option<TBlock>,
) -> Result<Option<KMain>, NoMemory>
    ensures { IfOk result (λ made. made ≡ option_map main_by (t.main_with (t.parameter_of params.now) block.now)) }
{
    match (params, block) {
        ([param], Some(block)) if is_strings(&param.kind.kind) => {
            let main = main_of(alloc, &param.name, block.statements.as_slice())?;
            Ok(Some(main))
        }
        _ => Ok(None),
    }
}

fn main_of(alloc: Global, name: &Name, statements: &[TStatement]) -> Result<KMain, NoMemory>
    ensures { IfOk result (λ made. made ≡ main_by (t.main_from name.now statements.now)) }
{
    let parameter = Name::from_str(alloc, name.as_str())?;
    let body = statements_of(alloc, statements)?;
    Ok(KMain { parameter, body })
}

#[tactic(auto, unfolding(meanings::specs::Taken::is_string))]
fn is_string(x: &TType) -> bool
    ensures { result ≡ t.is_string x.now }
{
    match x {
        TType::Class(ClassRef::Library(number), arguments) => {
            *number == 1 && matches!(arguments.as_slice(), [])
        }
        _ => false,
    }
}

#[tactic(auto, unfolding(meanings::specs::Taken::is_strings))]
fn is_strings(x: &TType) -> bool
    ensures { result ≡ t.is_strings x.now }
{
    match x {
        TType::Array(element) => is_string(element.get()),
        _ => false,
    }
}

#[tactic(auto, unfolding(meanings::specs::Taken::is_int))]
fn is_int(x: &TType) -> bool
    ensures { result ≡ t.is_int x.now }
{
    matches!(x, TType::Number(Kind::Int))
}

#[tactic(auto, unfolding(meanings::specs::Taken::is_println))]
fn is_println(member: MemberRef) -> bool
    ensures { result ≡ t.is_println member }
{
    match member.class {
        ClassRef::Library(number) => number == 16 && member.place == 8,
        ClassRef::Project(_) => false,
    }
}

fn statements_of(alloc: Global, statements: &[TStatement]) -> Result<KStmts, NoMemory>
    ensures { IfOk result (λ made. made ≡ map statement_by (map t.statement statements.now)) }
{
    let mut made = KStmts::new(alloc);
    for statement in statements {
        let one = statement_of(alloc, statement)?;
        made.push(one)?;
    }
    Ok(made)
}

#[tactic(auto, unfolding(meanings::specs::Taken::statement))]
fn statement_of(alloc: Global, statement: &TStatement) -> Result<KStmt, NoMemory>
    ensures { IfOk result (λ made. made ≡ statement_by (t.statement statement.now)) }
{
    match statement {
        TStatement::Simple(_, x, _) => simple(alloc, x),
        _ => Ok(untaken()),
    }
}

fn untaken() -> KStmt
    ensures { result ≡ statement_by t.Untaken }
{
    KStmt::Print(KExpr::Number(0))
}

fn simple(alloc: Global, x: &TSimple) -> Result<KStmt, NoMemory>
    ensures { IfOk result (λ made. made ≡ statement_by (t.simple_by x.now)) }
{
    match x {
        TSimple::Locals(names) => match names.as_slice() {
            [declared] => val_of(alloc, declared),
            _ => Ok(untaken()),
        },
        TSimple::Value(value) => call_of(alloc, value),
        _ => Ok(untaken()),
    }
}

/// A local that is never assigned again is a `val`.
fn val_of(alloc: Global, x: &TDeclarator) -> Result<KStmt, NoMemory>
    ensures { IfOk result (λ made. made ≡ statement_by (t.declared_by x.now x.now.value)) }
{
    match &x.value {
        Some(value) if is_int(&x.kind.kind) => {
            let name = Name::from_str(alloc, x.name.as_str())?;
            let value = expression_of(alloc, value)?;
            Ok(KStmt::Val(name, value.into_inner()))
        }
        _ => Ok(untaken()),
    }
}

/// `System.out.println` is `println`.
fn call_of(alloc: Global, x: &TExpr) -> Result<KStmt, NoMemory>
    ensures { IfOk result (λ made. made ≡ statement_by (t.called_by (out-TExpr x.now))) }
{
    match x {
        TExpr::StaticCall {
            member,
            arguments,
            ..
        } if is_println(*member) => match arguments.as_slice() {
            [value] => {
                let value = expression_of(alloc, value)?;
                Ok(KStmt::Print(value.into_inner()))
            }
            _ => Ok(untaken()),
        },
        _ => Ok(untaken()),
    }
}

fn number_of(x: &Value) -> u32
    ensures { result ≡ number_by x.now }
{
    match x {
        Value::Number(Const::Int(number)) => number.unsigned_abs(),
        _ => 0,
    }
}

fn operator_of(op: Op2) -> Operator
    ensures { result ≡ t.operator_of op }
{
    match op {
        Op2::Add => Operator::Plus,
        Op2::Sub => Operator::Minus,
        _ => Operator::Times,
    }
}

/// The same expression, with its parentheses; a zero stands for a form that isn't taken.
#[tactic(auto, unfolding(meanings::specs::Convert::expression_of))]
fn expression_of(alloc: Global, value: &TExpr) -> Result<Boxed<KExpr>, NoMemory>
    ensures { IfOk result (λ made. made ≡ expression_by value.now) }
{
    match value {
        TExpr::Local(name, ..) => {
            let name = Name::from_str(alloc, name.as_str())?;
            Ok(Boxed::new(alloc, KExpr::Local(name))?)
        }
        TExpr::Literal(number, _) => Ok(Boxed::new(alloc, KExpr::Number(number_of(number)))?),
        TExpr::Paren(_, inner) => {
            let inner = expression_of(alloc, inner.get())?;
            Ok(Boxed::new(alloc, KExpr::Paren(inner))?)
        }
        TExpr::Binary {
            left,
            op,
            right,
            ..
        } => {
            let left = expression_of(alloc, left.get())?;
            let right = expression_of(alloc, right.get())?;
            Ok(Boxed::new(alloc, KExpr::Binary(left, operator_of(*op), right))?)
        }
        _ => Ok(Boxed::new(alloc, KExpr::Number(0))?),
    }
}
