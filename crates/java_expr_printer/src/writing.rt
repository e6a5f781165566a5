//! What the tokens of a tree are, with its bodies as spans.

ghost use Rattle.std.specs.Prelude.{◌≡◌, ◌++◌, [], ◌∷◌, IfOk, Bool, true, map};
ghost use Rattle.java_tree.specs.Trees as s;
ghost use Rattle.java_tree.specs.Seen.{Token, kind_seen, word_seen};
ghost use Rattle.java_expr_printer.specs.Shown.{shown, written_shown};
ghost use Rattle.java_expr_printer.specs.Forms.{Form, form};
ghost use Rattle.java_tree.specs.declared.tokens.Mark.TheVariants as m;
ghost use Rattle.java_tree.specs.declared.tokens.Keyword.TheVariants as w;
ghost use Rattle.java_tree.specs.declared.tokens.Position.{Position};

use crate::{Written, copied};
use j2k_base::{Name, NoMemory, Units};
use java_tree::{
    AssignOp, BinaryOp, JBrackets, JCreated, JDotted, JExpr, JLiteral, JParam, JParams, JQualified,
    JToken, JType, JTypedParam, Keyword, Mark, Position, PostfixOp, PrefixOp, Primitive, Span,
    TokenKind,
};
use sqlite_items::Items;
use std::alloc::Global;

#[tactic(auto, using(crate::proofs::SpellParts::joins))]
fn put_token(out: &mut Vec<Written>, kind: TokenKind, at: Position) -> Result<(), NoMemory>
    ensures { IfOk result (λ u. shown out.new.items ≡ shown out.old.items ++ kind_seen kind at ∷ []) }
{
    out.push(Written::Token(JToken { kind, position: at }))?;
    Ok(())
}

/// A mark.
#[tactic(auto, using(crate::proofs::SpellParts::joins))]
pub fn put(out: &mut Vec<Written>, mark: Mark, at: Position) -> Result<(), NoMemory>
    ensures { IfOk result (λ u. shown out.new.items ≡ shown out.old.items ++ Token.Sign mark at ∷ []) }
{
    put_token(out, TokenKind::Mark(mark), at)
}

/// A keyword, or `true`, `false` or `null`.
pub fn put_keyword(out: &mut Vec<Written>, word: Keyword, at: Position) -> Result<(), NoMemory>
    ensures { IfOk result (λ u. shown out.new.items ≡ shown out.old.items ++ word_seen word at ∷ []) }
{
    put_token(out, TokenKind::Keyword(word), at)
}

/// A name.
pub fn put_word(
    alloc: Global,
    out: &mut Vec<Written>,
    name: &Name,
    at: Position,
) -> Result<(), NoMemory>
    ensures { IfOk result (λ u. shown out.new.items ≡ shown out.old.items ++ Token.Id name.now at ∷ []) }
{
    put_token(out, TokenKind::Name(copied(alloc, name)?), at)
}

/// The token of a literal.
fn literal_kind(alloc: Global, literal: &JLiteral) -> Result<TokenKind, NoMemory>
    ensures { IfOk result (λ kind. (at : Position) → kind_seen kind at ≡ Token.Literal literal.now at) }
{
    match literal {
        JLiteral::Integer(n) => Ok(TokenKind::Integer(*n)),
        JLiteral::LeastInteger => Ok(TokenKind::LeastInteger),
        JLiteral::Long(n) => Ok(TokenKind::Long(*n)),
        JLiteral::LeastLong => Ok(TokenKind::LeastLong),
        JLiteral::Character(unit) => Ok(TokenKind::Character(*unit)),
        JLiteral::Text(units) => {
            let units = Vec::from_slice(alloc, units.as_slice())?;
            Ok(TokenKind::Text(Units::from_vec(units)))
        }
        JLiteral::True => Ok(TokenKind::Keyword(Keyword::True)),
        JLiteral::False => Ok(TokenKind::Keyword(Keyword::False)),
        JLiteral::Null => Ok(TokenKind::Keyword(Keyword::Null)),
    }
}

fn put_literal(
    alloc: Global,
    out: &mut Vec<Written>,
    literal: &JLiteral,
    at: Position,
) -> Result<(), NoMemory>
    ensures { IfOk result (λ u. shown out.new.items ≡ shown out.old.items ++ Token.Literal literal.now at ∷ []) }
{
    put_token(out, literal_kind(alloc, literal)?, at)
}

fn prefix_mark(op: PrefixOp) -> Mark
    ensures { result ≡ s.prefix_mark op }
{
    match op {
        PrefixOp::Plus => Mark::Plus,
        PrefixOp::Minus => Mark::Minus,
        PrefixOp::Increment => Mark::PlusPlus,
        PrefixOp::Decrement => Mark::MinusMinus,
        PrefixOp::Complement => Mark::Tilde,
        PrefixOp::Not => Mark::Not,
    }
}

fn postfix_mark(op: PostfixOp) -> Mark
    ensures { result ≡ s.postfix_mark op }
{
    match op {
        PostfixOp::Increment => Mark::PlusPlus,
        PostfixOp::Decrement => Mark::MinusMinus,
    }
}

fn primitive_word(kind: Primitive) -> Keyword
    ensures { result ≡ s.primitive_word kind }
{
    match kind {
        Primitive::Byte => Keyword::Byte,
        Primitive::Short => Keyword::Short,
        Primitive::Char => Keyword::Char,
        Primitive::Int => Keyword::Int,
        Primitive::Long => Keyword::Long,
        Primitive::Boolean => Keyword::Boolean,
    }
}

/// The `>` behind types, and whether another `>` or a `=` stands directly behind it.
pub fn closing(is_joined: bool) -> Mark
    ensures { result ≡ s.closing is_joined }
{
    if is_joined {
        Mark::GreaterJoined
    } else {
        Mark::Greater
    }
}

#[tactic(auto, using(crate::proofs::SpellParts::joins))]
fn put_operator(out: &mut Vec<Written>, op: BinaryOp, at: Position) -> Result<(), NoMemory>
    ensures { IfOk result (λ u. shown out.new.items ≡ shown out.old.items ++ s.operator_tokens op at) }
{
    let mark = match op {
        BinaryOp::GreaterEqual(second) => return put_two(out, at, Mark::Assign, second),
        BinaryOp::ShiftRight(second) => return put_two(out, at, Mark::Greater, second),
        BinaryOp::ShiftUnsigned(second, third) => {
            put(out, Mark::GreaterJoined, at)?;
            return put_two(out, second, Mark::Greater, third);
        }
        BinaryOp::OrElse => Mark::OrOr,
        BinaryOp::AndAlso => Mark::AndAnd,
        BinaryOp::BitOr => Mark::Or,
        BinaryOp::BitXor => Mark::Hat,
        BinaryOp::BitAnd => Mark::And,
        BinaryOp::Equal => Mark::Equal,
        BinaryOp::NotEqual => Mark::NotEqual,
        BinaryOp::Less => Mark::Less,
        BinaryOp::LessEqual => Mark::LessEqual,
        BinaryOp::Greater => Mark::Greater,
        BinaryOp::ShiftLeft => Mark::ShiftLeft,
        BinaryOp::Add => Mark::Plus,
        BinaryOp::Subtract => Mark::Minus,
        BinaryOp::Multiply => Mark::Star,
        BinaryOp::Divide => Mark::Slash,
        BinaryOp::Remainder => Mark::Percent,
    };
    put(out, mark, at)
}

/// A `>` that is joined to the mark behind it.
#[tactic(auto, using(crate::proofs::SpellParts::joins))]
fn put_two(
    out: &mut Vec<Written>,
    at: Position,
    last: Mark,
    second: Position,
) -> Result<(), NoMemory>
    ensures { IfOk result (λ u. shown out.new.items ≡ shown out.old.items ++ Token.Sign m.GreaterJoined at ∷ Token.Sign last second ∷ []) }
{
    put(out, Mark::GreaterJoined, at)?;
    put(out, last, second)
}

#[tactic(auto, using(crate::proofs::SpellParts::joins))]
fn put_assign(out: &mut Vec<Written>, op: AssignOp, at: Position) -> Result<(), NoMemory>
    ensures { IfOk result (λ u. shown out.new.items ≡ shown out.old.items ++ s.assign_tokens op at) }
{
    let mark = match op {
        AssignOp::ShiftRight(second, third) => {
            put(out, Mark::GreaterJoined, at)?;
            return put_two(out, second, Mark::Assign, third);
        }
        AssignOp::ShiftUnsigned(second, third, fourth) => {
            put_two(out, at, Mark::GreaterJoined, second)?;
            return put_two(out, third, Mark::Assign, fourth);
        }
        AssignOp::Plain => Mark::Assign,
        AssignOp::Add => Mark::PlusAssign,
        AssignOp::Subtract => Mark::MinusAssign,
        AssignOp::Multiply => Mark::StarAssign,
        AssignOp::Divide => Mark::SlashAssign,
        AssignOp::Remainder => Mark::PercentAssign,
        AssignOp::ShiftLeft => Mark::ShiftLeftAssign,
        AssignOp::BitAnd => Mark::AndAssign,
        AssignOp::BitOr => Mark::OrAssign,
        AssignOp::BitXor => Mark::HatAssign,
    };
    put(out, mark, at)
}

#[tactic(auto, using(crate::proofs::SpellParts::joins))]
fn other_params(
    alloc: Global,
    out: &mut Vec<Written>,
    items: &[JParam],
    commas: &[Position],
) -> Result<(), NoMemory>
    ensures { IfOk result (λ u. shown out.new.items ≡ shown out.old.items ++ s.more_tokens commas.entry.now (map s.param_tokens items.entry.now)) }
{
    let mut items = items;
    let mut commas = commas;
    while let [at, rest @ ..] = commas {
        let [item, more @ ..] = items else {
            return Ok(());
        };
        put(out, Mark::Comma, *at)?;
        put_word(alloc, out, &item.name, item.at)?;
        items = more;
        commas = rest;
    }
    Ok(())
}

#[tactic(auto, using(crate::proofs::SpellParts::joins))]
fn param_list(
    alloc: Global,
    out: &mut Vec<Written>,
    items: &[JParam],
    commas: &[Position],
) -> Result<(), NoMemory>
    ensures { IfOk result (λ u. shown out.new.items ≡ shown out.old.items ++ s.listed commas.now (map s.param_tokens items.now)) }
{
    let [first, more @ ..] = items else {
        return Ok(());
    };
    put_word(alloc, out, &first.name, first.at)?;
    other_params(alloc, out, more, commas)
}

/// The names behind a name.
#[tactic(auto, using(crate::proofs::SpellParts::joins))]
fn put_dotted(alloc: Global, out: &mut Vec<Written>, rest: &[JDotted]) -> Result<(), NoMemory>
    ensures { IfOk result (λ u. shown out.new.items ≡ shown out.old.items ++ s.dotted_tokens rest.entry.now) }
{
    let mut rest = rest;
    while let [item, more @ ..] = rest {
        put(out, Mark::Dot, item.dot)?;
        put_word(alloc, out, &item.name, item.at)?;
        rest = more;
    }
    Ok(())
}

/// A name with those behind it (JLS 6.2).
#[tactic(auto, using(crate::proofs::SpellParts::joins))]
pub fn put_qualified(
    alloc: Global,
    out: &mut Vec<Written>,
    name: &JQualified,
) -> Result<(), NoMemory>
    ensures { IfOk result (λ u. shown out.new.items ≡ shown out.old.items ++ s.qualified_tokens name.now) }
{
    put_word(alloc, out, &name.name, name.at)?;
    put_dotted(alloc, out, name.rest.as_slice())
}

/// Pairs of brackets.
#[tactic(auto, using(crate::proofs::SpellParts::joins))]
pub fn put_brackets(out: &mut Vec<Written>, pairs: &[JBrackets]) -> Result<(), NoMemory>
    ensures { IfOk result (λ u. shown out.new.items ≡ shown out.old.items ++ s.brackets_tokens pairs.entry.now) }
{
    let mut pairs = pairs;
    while let [pair, more @ ..] = pairs {
        put(out, Mark::OpenSquare, pair.opens)?;
        put(out, Mark::CloseSquare, pair.closes)?;
        pairs = more;
    }
    Ok(())
}

/// A type (JLS 4).
#[cycle(spell_types)]
#[tactic(auto, using(crate::proofs::SpellParts::joins))]
pub fn put_type(alloc: Global, out: &mut Vec<Written>, x: &JType) -> Result<(), NoMemory>
    ensures { IfOk result (λ u. shown out.new.items ≡ shown out.old.items ++ s.type_tokens x.now) }
{
    match x {
        JType::Primitive(kind, at) => put_keyword(out, primitive_word(*kind), *at),
        JType::Class(name) => put_qualified(alloc, out, name),
        JType::Applied(name, lp, items, commas, is_joined, close) => {
            put_qualified(alloc, out, name)?;
            put(out, Mark::Less, *lp)?;
            put_types(alloc, out, items.as_slice(), commas.as_slice())?;
            put(out, closing(*is_joined), *close)
        }
        JType::Array(element, pairs) => {
            put_type(alloc, out, element.get())?;
            put_brackets(out, pairs.as_slice())
        }
    }
}

/// Types with commas between them.
#[cycle(spell_types)]
#[tactic(auto, using(crate::proofs::SpellParts::joins))]
pub fn put_types(
    alloc: Global,
    out: &mut Vec<Written>,
    items: &[JType],
    commas: &[Position],
) -> Result<(), NoMemory>
    ensures { IfOk result (λ u. shown out.new.items ≡ shown out.old.items ++ s.listed commas.now (map s.type_tokens items.now)) }
{
    let [first, more @ ..] = items else {
        return Ok(());
    };
    put_type(alloc, out, first)?;
    other_types(alloc, out, more, commas)
}

#[cycle(spell_types)]
#[tactic(auto, using(crate::proofs::SpellParts::joins))]
fn other_types(
    alloc: Global,
    out: &mut Vec<Written>,
    items: &[JType],
    commas: &[Position],
) -> Result<(), NoMemory>
    ensures { IfOk result (λ u. shown out.new.items ≡ shown out.old.items ++ s.more_tokens commas.entry.now (map s.type_tokens items.entry.now)) }
{
    let mut items = items;
    let mut commas = commas;
    while let [at, rest @ ..] = commas {
        let [item, more @ ..] = items else {
            return Ok(());
        };
        put(out, Mark::Comma, *at)?;
        put_type(alloc, out, item)?;
        items = more;
        commas = rest;
    }
    Ok(())
}

/// `final` where it stands.
#[tactic(auto, using(crate::proofs::SpellParts::joins))]
pub fn put_final(out: &mut Vec<Written>, is_final: Option<Position>) -> Result<(), NoMemory>
    ensures { IfOk result (λ u. shown out.new.items ≡ shown out.old.items ++ s.final_tokens is_final) }
{
    match is_final {
        None => Ok(()),
        Some(at) => put_keyword(out, Keyword::Final, at),
    }
}

/// A parameter with its type (JLS 8.4.1).
#[tactic(auto, using(crate::proofs::SpellParts::joins))]
pub fn put_typed(alloc: Global, out: &mut Vec<Written>, param: &JTypedParam) -> Result<(), NoMemory>
    ensures { IfOk result (λ u. shown out.new.items ≡ shown out.old.items ++ s.typed_tokens param.now) }
{
    put_final(out, param.is_final)?;
    put_type(alloc, out, &param.kind)?;
    put_word(alloc, out, &param.name, param.at)
}

#[tactic(auto, using(crate::proofs::SpellParts::joins))]
fn other_typed(
    alloc: Global,
    out: &mut Vec<Written>,
    items: &[JTypedParam],
    commas: &[Position],
) -> Result<(), NoMemory>
    ensures { IfOk result (λ u. shown out.new.items ≡ shown out.old.items ++ s.more_tokens commas.entry.now (map s.typed_tokens items.entry.now)) }
{
    let mut items = items;
    let mut commas = commas;
    while let [at, rest @ ..] = commas {
        let [item, more @ ..] = items else {
            return Ok(());
        };
        put(out, Mark::Comma, *at)?;
        put_typed(alloc, out, item)?;
        items = more;
        commas = rest;
    }
    Ok(())
}

/// Parameters with commas between them.
#[tactic(auto, using(crate::proofs::SpellParts::joins))]
pub fn typed_list(
    alloc: Global,
    out: &mut Vec<Written>,
    items: &[JTypedParam],
    commas: &[Position],
) -> Result<(), NoMemory>
    ensures { IfOk result (λ u. shown out.new.items ≡ shown out.old.items ++ s.listed commas.now (map s.typed_tokens items.now)) }
{
    let [first, more @ ..] = items else {
        return Ok(());
    };
    put_typed(alloc, out, first)?;
    other_typed(alloc, out, more, commas)
}

#[tactic(auto, using(crate::proofs::SpellParts::joins))]
fn put_params(alloc: Global, out: &mut Vec<Written>, params: &JParams) -> Result<(), NoMemory>
    ensures { IfOk result (λ u. shown out.new.items ≡ shown out.old.items ++ s.params_tokens params.now) }
{
    match params {
        JParams::One(param) => put_word(alloc, out, &param.name, param.at),
        JParams::Several(lp, items, commas, rp) => {
            put(out, Mark::OpenRound, *lp)?;
            param_list(alloc, out, items.as_slice(), commas.as_slice())?;
            put(out, Mark::CloseRound, *rp)
        }
        JParams::Typed(lp, items, commas, rp) => {
            put(out, Mark::OpenRound, *lp)?;
            typed_list(alloc, out, items.as_slice(), commas.as_slice())?;
            put(out, Mark::CloseRound, *rp)
        }
    }
}

#[tactic(auto, using(crate::proofs::SpellParts::joins))]
fn put_created(alloc: Global, out: &mut Vec<Written>, made: &JCreated) -> Result<(), NoMemory>
    ensures { IfOk result (λ u. shown out.new.items ≡ shown out.old.items ++ s.created_tokens made.now) }
{
    match made {
        JCreated::Type(kind) => put_type(alloc, out, kind),
        JCreated::Inferred(name, lp, is_joined, close) => {
            put_qualified(alloc, out, name)?;
            put(out, Mark::Less, *lp)?;
            put(out, closing(*is_joined), *close)
        }
    }
}

/// A token with the body behind it.
#[tactic(auto, using(crate::proofs::SpellParts::joins))]
fn put_span(out: &mut Vec<Written>, token: Written) -> Result<(), NoMemory>
    ensures { IfOk result (λ u. shown out.new.items ≡ shown out.old.items ++ written_shown token ∷ []) }
{
    out.push(token)?;
    Ok(())
}

/// The `)` behind arguments, with the body of an anonymous class where there is one.
#[tactic(auto, using(crate::proofs::SpellParts::joins))]
fn put_close(out: &mut Vec<Written>, rp: Position, body: Option<Span>) -> Result<(), NoMemory>
    ensures { IfOk result (λ u. shown out.new.items ≡ shown out.old.items ++ s.args_close rp body ∷ []) }
{
    match body {
        None => put(out, Mark::CloseRound, rp),
        Some(body) => put_span(out, Written::Body(rp, body)),
    }
}

/// A comma behind the last value, where there is one.
#[tactic(auto, using(crate::proofs::SpellParts::joins))]
pub fn put_trailing(out: &mut Vec<Written>, more: Option<Position>) -> Result<(), NoMemory>
    ensures { IfOk result (λ u. shown out.new.items ≡ shown out.old.items ++ s.trailing more) }
{
    match more {
        None => Ok(()),
        Some(at) => put(out, Mark::Comma, at),
    }
}

#[tactic(auto, using(crate::proofs::SpellParts::joins))]
fn put_member(
    alloc: Global,
    out: &mut Vec<Written>,
    dot: Position,
    name: &Name,
    at: Position,
) -> Result<(), NoMemory>
    ensures { IfOk result (λ u. shown out.new.items ≡ shown out.old.items ++ Token.Sign m.Dot dot ∷ Token.Id name.now at ∷ []) }
{
    put(out, Mark::Dot, dot)?;
    put_word(alloc, out, name, at)
}

fn put_new(out: &mut Vec<Written>, at: Position) -> Result<(), NoMemory>
    ensures { IfOk result (λ u. shown out.new.items ≡ shown out.old.items ++ Token.Word w.New at ∷ []) }
{
    put_keyword(out, Keyword::New, at)
}

/// `new` and the type of the elements of an array.
#[tactic(auto, using(crate::proofs::SpellParts::joins))]
fn put_element(
    alloc: Global,
    out: &mut Vec<Written>,
    at: Position,
    element: &JType,
) -> Result<(), NoMemory>
    ensures { IfOk result (λ u. shown out.new.items ≡ shown out.old.items ++ Token.Word w.New at ∷ s.type_tokens element.now) }
{
    put_new(out, at)?;
    put_type(alloc, out, element)
}

/// An expression (JLS 15).
#[cycle(spell_exprs)]
#[tactic(auto, using(crate::proofs::SpellParts::joins))]
pub fn put_expr(alloc: Global, out: &mut Vec<Written>, x: &JExpr) -> Result<(), NoMemory>
    ensures { IfOk result (λ u. shown out.new.items ≡ shown out.old.items ++ s.tokens x.now) }
{
    match x {
        JExpr::Name(name, at) => put_word(alloc, out, name, *at),
        JExpr::Literal(literal, at) => put_literal(alloc, out, literal, *at),
        JExpr::This(at) => put_keyword(out, Keyword::This, *at),
        JExpr::Paren(lp, inner, rp) => {
            put(out, Mark::OpenRound, *lp)?;
            put_expr(alloc, out, inner.get())?;
            put(out, Mark::CloseRound, *rp)
        }
        JExpr::Call(name, at, lp, items, commas, rp) => {
            put_word(alloc, out, name, *at)?;
            put_args(alloc, out, *lp, items, commas, *rp)
        }
        JExpr::Prefix(..) | JExpr::MinusLeast(..) | JExpr::Cast(..) => put_prefixed(alloc, out, x),
        JExpr::Binary(..) | JExpr::Instanceof(..) | JExpr::Conditional(..) | JExpr::Assign(..) => {
            put_joined(alloc, out, x)
        }
        JExpr::Lambda(..) | JExpr::LambdaBlock(..) => put_lambda(alloc, out, x),
        JExpr::New(..) | JExpr::NewArray(..) | JExpr::NewFilled(..) | JExpr::Braces(..) => {
            put_made(alloc, out, x)
        }
        _ => put_access(alloc, out, x),
    }
}

/// An operator or a type before its operand, and nothing for another form.
#[cycle(spell_exprs)]
#[tactic(auto, using(crate::proofs::SpellParts::joins))]
fn put_prefixed(alloc: Global, out: &mut Vec<Written>, x: &JExpr) -> Result<(), NoMemory>
    ensures { IfOk result (λ u. form x.now ≡ Form.Prefixed → shown out.new.items ≡ shown out.old.items ++ s.tokens x.now) }
{
    match x {
        JExpr::Prefix(op, at, inner) => {
            put(out, prefix_mark(*op), *at)?;
            put_expr(alloc, out, inner.get())
        }
        JExpr::MinusLeast(minus, literal, at) => {
            put(out, Mark::Minus, *minus)?;
            put_literal(alloc, out, literal, *at)
        }
        JExpr::Cast(lp, to, rp, inner) => {
            put(out, Mark::OpenRound, *lp)?;
            put_type(alloc, out, to)?;
            put(out, Mark::CloseRound, *rp)?;
            put_expr(alloc, out, inner.get())
        }
        _ => Ok(()),
    }
}

/// A member, an element, or an operator behind its operand, and nothing for another form.
#[cycle(spell_exprs)]
#[tactic(auto, using(crate::proofs::SpellParts::joins))]
fn put_access(alloc: Global, out: &mut Vec<Written>, x: &JExpr) -> Result<(), NoMemory>
    ensures { IfOk result (λ u. form x.now ≡ Form.Access → shown out.new.items ≡ shown out.old.items ++ s.tokens x.now) }
{
    match x {
        JExpr::SuperCall(above, dot, name, at, lp, items, commas, rp) => {
            put_keyword(out, Keyword::Super, *above)?;
            put_member(alloc, out, *dot, name, *at)?;
            put_args(alloc, out, *lp, items, commas, *rp)
        }
        JExpr::Field(left, dot, name, at) => {
            put_expr(alloc, out, left.get())?;
            put_member(alloc, out, *dot, name, *at)
        }
        JExpr::Method(left, dot, name, at, lp, items, commas, rp) => {
            put_expr(alloc, out, left.get())?;
            put_member(alloc, out, *dot, name, *at)?;
            put_args(alloc, out, *lp, items, commas, *rp)
        }
        JExpr::Element(left, lp, index, rp) => {
            put_expr(alloc, out, left.get())?;
            put(out, Mark::OpenSquare, *lp)?;
            put_expr(alloc, out, index.get())?;
            put(out, Mark::CloseSquare, *rp)
        }
        JExpr::Postfix(left, op, at) => {
            put_expr(alloc, out, left.get())?;
            put(out, postfix_mark(*op), *at)
        }
        _ => Ok(()),
    }
}

/// An operator between its operands, and nothing for another form.
#[cycle(spell_exprs)]
#[tactic(auto, using(crate::proofs::SpellParts::joins))]
fn put_joined(alloc: Global, out: &mut Vec<Written>, x: &JExpr) -> Result<(), NoMemory>
    ensures { IfOk result (λ u. form x.now ≡ Form.Joined → shown out.new.items ≡ shown out.old.items ++ s.tokens x.now) }
{
    match x {
        JExpr::Binary(left, op, at, right) => {
            put_expr(alloc, out, left.get())?;
            put_operator(out, *op, *at)?;
            put_expr(alloc, out, right.get())
        }
        JExpr::Instanceof(left, at, to) => {
            put_expr(alloc, out, left.get())?;
            put_keyword(out, Keyword::Instanceof, *at)?;
            put_type(alloc, out, to)
        }
        JExpr::Conditional(left, question, middle, colon, last) => {
            put_expr(alloc, out, left.get())?;
            put(out, Mark::Question, *question)?;
            put_expr(alloc, out, middle.get())?;
            put(out, Mark::Colon, *colon)?;
            put_expr(alloc, out, last.get())
        }
        JExpr::Assign(left, op, at, right) => {
            put_expr(alloc, out, left.get())?;
            put_assign(out, *op, *at)?;
            put_expr(alloc, out, right.get())
        }
        _ => Ok(()),
    }
}

/// A lambda, and nothing for another form.
#[cycle(spell_exprs)]
#[tactic(auto, using(crate::proofs::SpellParts::joins))]
fn put_lambda(alloc: Global, out: &mut Vec<Written>, x: &JExpr) -> Result<(), NoMemory>
    ensures { IfOk result (λ u. form x.now ≡ Form.Lambda → shown out.new.items ≡ shown out.old.items ++ s.tokens x.now) }
{
    match x {
        JExpr::Lambda(params, at, body) => {
            put_params(alloc, out, params)?;
            put(out, Mark::Arrow, *at)?;
            put_expr(alloc, out, body.get())
        }
        JExpr::LambdaBlock(params, at, body) => {
            put_params(alloc, out, params)?;
            put_span(out, Written::Block(*at, *body))
        }
        _ => Ok(()),
    }
}

/// An object or an array that is created, or the values of an array, and nothing for another form.
#[cycle(spell_exprs)]
#[tactic(auto, using(crate::proofs::SpellParts::joins))]
fn put_made(alloc: Global, out: &mut Vec<Written>, x: &JExpr) -> Result<(), NoMemory>
    ensures { IfOk result (λ u. form x.now ≡ Form.Made → shown out.new.items ≡ shown out.old.items ++ s.tokens x.now) }
{
    match x {
        JExpr::New(at, made, lp, items, commas, rp, body) => {
            put_new(out, *at)?;
            put_created(alloc, out, made)?;
            put(out, Mark::OpenRound, *lp)?;
            put_list(alloc, out, items.as_slice(), commas.as_slice())?;
            put_close(out, *rp, *body)
        }
        JExpr::NewArray(at, element, lb, size, rb, pairs) => {
            put_element(alloc, out, *at, element)?;
            put(out, Mark::OpenSquare, *lb)?;
            put_expr(alloc, out, size.get())?;
            put(out, Mark::CloseSquare, *rb)?;
            put_brackets(out, pairs.as_slice())
        }
        JExpr::NewFilled(at, element, pairs, lc, items, commas, more, rc) => {
            put_element(alloc, out, *at, element)?;
            put_brackets(out, pairs.as_slice())?;
            put_braces(alloc, out, *lc, items, commas, *more, *rc)
        }
        JExpr::Braces(lc, items, commas, more, rc) => {
            put_braces(alloc, out, *lc, items, commas, *more, *rc)
        }
        _ => Ok(()),
    }
}

/// The arguments with their parentheses.
#[cycle(spell_exprs)]
#[tactic(auto, using(crate::proofs::SpellParts::joins))]
pub fn put_args(
    alloc: Global,
    out: &mut Vec<Written>,
    lp: Position,
    items: &Items<JExpr>,
    commas: &Items<Position>,
    rp: Position,
) -> Result<(), NoMemory>
    ensures { IfOk result (λ u. shown out.new.items ≡ shown out.old.items ++ Token.Sign m.OpenRound lp ∷ (s.listed commas.now (map s.tokens items.now) ++ Token.Sign m.CloseRound rp ∷ [])) }
{
    put(out, Mark::OpenRound, lp)?;
    put_list(alloc, out, items.as_slice(), commas.as_slice())?;
    put(out, Mark::CloseRound, rp)
}

/// The values of an array with their braces.
#[cycle(spell_exprs)]
#[tactic(auto, using(crate::proofs::SpellParts::joins))]
fn put_braces(
    alloc: Global,
    out: &mut Vec<Written>,
    lc: Position,
    items: &Items<JExpr>,
    commas: &Items<Position>,
    more: Option<Position>,
    rc: Position,
) -> Result<(), NoMemory>
    ensures { IfOk result (λ u. shown out.new.items ≡ shown out.old.items ++ s.braces_tokens lc (map s.tokens items.now) commas.now more rc) }
{
    put(out, Mark::OpenCurly, lc)?;
    put_list(alloc, out, items.as_slice(), commas.as_slice())?;
    put_trailing(out, more)?;
    put(out, Mark::CloseCurly, rc)
}

/// Expressions with commas between them.
#[cycle(spell_exprs)]
#[tactic(auto, using(crate::proofs::SpellParts::joins))]
pub fn put_list(
    alloc: Global,
    out: &mut Vec<Written>,
    items: &[JExpr],
    commas: &[Position],
) -> Result<(), NoMemory>
    ensures { IfOk result (λ u. shown out.new.items ≡ shown out.old.items ++ s.listed commas.now (map s.tokens items.now)) }
{
    let [first, more @ ..] = items else {
        return Ok(());
    };
    put_expr(alloc, out, first)?;
    put_others(alloc, out, more, commas)
}

#[cycle(spell_exprs)]
#[tactic(auto, using(crate::proofs::SpellParts::joins))]
fn put_others(
    alloc: Global,
    out: &mut Vec<Written>,
    items: &[JExpr],
    commas: &[Position],
) -> Result<(), NoMemory>
    ensures { IfOk result (λ u. shown out.new.items ≡ shown out.old.items ++ s.more_tokens commas.entry.now (map s.tokens items.entry.now)) }
{
    let mut items = items;
    let mut commas = commas;
    while let [at, rest @ ..] = commas {
        let [item, more @ ..] = items else {
            return Ok(());
        };
        put(out, Mark::Comma, *at)?;
        put_expr(alloc, out, item)?;
        items = more;
        commas = rest;
    }
    Ok(())
}
