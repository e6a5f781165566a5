//! Where a form stands: at its first token.

ghost use Rattle.std.specs.Prelude.{◌≡◌};
ghost use Rattle.java_tree.specs.declared.tokens.Position.{Position};
ghost use Rattle.java_statement_grammar.specs.Heads.{simple_tokens};
ghost use Rattle.java_member_grammar.specs.Heads.{member_tokens, modifiers_tokens, result_tokens, type_head_tokens, type_params_tokens};
ghost use Rattle.java_taken.specs.Places as s;

use java_member_grammar::{JMemberHead, JModifier, JResult, JTypeHead, JTypeParams};
use java_statement_grammar::{JDeclaration, JSimple};
use java_tree::{JExpr, JParams, JType, Position};
use java_unit_grammar::{JMember, JStatement};

/// The first token of a type.
#[tactic(auto, using(crate::proofs::Variants::types))]
pub(crate) fn type_at(x: &JType) -> Position
    ensures { result ≡ s.type_at x.now }
{
    match x {
        JType::Primitive(_, at) => *at,
        JType::Class(name) => name.at,
        JType::Applied(name, ..) => name.at,
        JType::Array(element, _) => type_at(element.get()),
    }
}

/// The first token of the parameters of a lambda.
fn params_at(x: &JParams) -> Position
    ensures { result ≡ s.params_at x.now }
{
    match x {
        JParams::One(name) => name.at,
        JParams::Several(at, ..) => *at,
        JParams::Typed(at, ..) => *at,
    }
}

/// The first token of an expression.
#[tactic(auto, using(crate::proofs::Variants::firsts))]
pub(crate) fn first_at(x: &JExpr) -> Position
    ensures { result ≡ s.first_at x.now }
{
    match x {
        JExpr::Name(_, at)
        | JExpr::Literal(_, at)
        | JExpr::This(at)
        | JExpr::Paren(at, ..)
        | JExpr::Call(_, at, ..)
        | JExpr::SuperCall(at, ..)
        | JExpr::Prefix(_, at, _)
        | JExpr::MinusLeast(at, ..)
        | JExpr::Cast(at, ..)
        | JExpr::New(at, ..)
        | JExpr::NewArray(at, ..)
        | JExpr::NewFilled(at, ..)
        | JExpr::Braces(at, ..) => *at,
        JExpr::Field(left, ..)
        | JExpr::Method(left, ..)
        | JExpr::Element(left, ..)
        | JExpr::Postfix(left, ..)
        | JExpr::Binary(left, ..)
        | JExpr::Instanceof(left, ..)
        | JExpr::Conditional(left, ..)
        | JExpr::Assign(left, ..) => first_at(left.get()),
        JExpr::Lambda(params, ..) | JExpr::LambdaBlock(params, ..) => params_at(params),
    }
}

#[tactic(auto, using(crate::proofs::Heads::places))]
fn declaration_at(x: &JDeclaration) -> Position
    ensures { result ≡ s.declaration_at x.now }
{
    match x.is_final {
        Some(at) => at,
        None => type_at(&x.kind),
    }
}

/// The first token of what stands before the `;` at `end`, or that `;`.
#[tactic(auto, using(crate::proofs::Heads::places))]
fn simple_at(x: &JSimple, end: Position) -> Position
    ensures { result ≡ s.first_or (simple_tokens x.now) end }
{
    match x {
        JSimple::Empty => end,
        JSimple::Declaration(x) => declaration_at(x),
        JSimple::Expression(x) => first_at(x),
        JSimple::Break(at, _)
        | JSimple::Continue(at, _)
        | JSimple::Return(at, _)
        | JSimple::Throw(at, _)
        | JSimple::ThisCall(at, ..)
        | JSimple::SuperCall(at, ..) => *at,
    }
}

/// The first token of a statement.
#[tactic(auto, using(crate::proofs::Heads::places), unfolding(crate::specs::Places::statement_at))]
pub(crate) fn statement_at(x: &JStatement) -> Position
    ensures { result ≡ s.statement_at x.now }
{
    match x {
        JStatement::Simple(x, _, end) => simple_at(x, *end),
        JStatement::Block(at, ..)
        | JStatement::Labeled(_, at, ..)
        | JStatement::If(at, ..)
        | JStatement::IfElse(at, ..)
        | JStatement::While(at, ..)
        | JStatement::Do(at, ..)
        | JStatement::For(at, ..)
        | JStatement::Switch(at, ..)
        | JStatement::Synchronized(at, ..)
        | JStatement::Try(at, ..)
        | JStatement::TryFinally(at, ..) => *at,
    }
}

/// The first modifier, or what follows the modifiers.
#[tactic(auto, using(crate::proofs::Heads::places))]
fn modifiers_at(mods: &[JModifier], next: Position) -> Position
    ensures { result ≡ s.first_or (modifiers_tokens mods.now) next }
{
    match mods {
        [first, ..] => first.at,
        [] => next,
    }
}

/// The first token behind the modifiers of a method.
#[tactic(auto, using(crate::proofs::Heads::places))]
fn method_at(params: &Option<JTypeParams>, answer: &JResult) -> Position
    ensures { (other : Position) → result ≡ s.first_or (type_params_tokens params.now) (s.first_or (result_tokens answer.now) other) }
{
    match params {
        Some(params) => params.opens,
        None => match answer {
            JResult::Void(at) => *at,
            JResult::Type(x) => type_at(x),
        },
    }
}

/// The first token of the head of a member, or what follows it where it has none.
#[tactic(auto, using(crate::proofs::Heads::places))]
fn head_at(x: &JMemberHead, next: Position) -> Position
    ensures { result ≡ s.first_or (member_tokens x.now) next }
{
    match x {
        JMemberHead::Empty => next,
        JMemberHead::Field(mods, x) => modifiers_at(mods.as_slice(), declaration_at(x)),
        JMemberHead::Method(mods, params, answer, ..) => {
            modifiers_at(mods.as_slice(), method_at(params, answer))
        }
        JMemberHead::Constructor(mods, _, at, ..) => modifiers_at(mods.as_slice(), *at),
        JMemberHead::Initializer(at) => match at {
            Some(at) => *at,
            None => next,
        },
    }
}

/// The first token of the head of a type.
#[tactic(auto, using(crate::proofs::Heads::places))]
fn type_head_at(x: &JTypeHead) -> Position
    ensures { (other : Position) → result ≡ s.first_or (type_head_tokens x.now) other }
{
    match x {
        JTypeHead::Class(mods, at, ..)
        | JTypeHead::Interface(mods, at, ..)
        | JTypeHead::Enum(mods, at, ..) => modifiers_at(mods.as_slice(), *at),
    }
}

/// The first token of a member.
#[tactic(auto, using(crate::proofs::Heads::places), unfolding(crate::specs::Places::member_at))]
pub(crate) fn member_at(x: &JMember) -> Position
    ensures { result ≡ s.member_at x.now }
{
    match x {
        JMember::Declared(head, _, end) => head_at(head, *end),
        JMember::Bodied(head, left, ..) => head_at(head, *left),
        JMember::Type(head, ..) => type_head_at(head),
    }
}
