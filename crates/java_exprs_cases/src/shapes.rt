//! The shape of an expression.

use crate::names::{put_brackets, put_comma, put_created, put_params, put_type};
use crate::signs::{assign_sign, binary_sign, postfix_sign, prefix_sign};
use j2k_base::NoMemory;
use java_tree::{JExpr, JLiteral, Position, Span};
use std::fmt::Write;

fn put_literal(out: &mut String, literal: &JLiteral) -> Result<(), NoMemory> {
    match literal {
        JLiteral::Integer(value) => write!(out, "{value}")?,
        JLiteral::LeastInteger => write!(out, "int")?,
        JLiteral::Long(value) => write!(out, "{value}L")?,
        JLiteral::LeastLong => write!(out, "long")?,
        JLiteral::Character(unit) => write!(out, "'{unit}")?,
        JLiteral::Text(units) => write!(out, "text({})", units.as_slice().len())?,
        JLiteral::True => write!(out, "true")?,
        JLiteral::False => write!(out, "false")?,
        JLiteral::Null => write!(out, "null")?,
    }
    Ok(())
}

/// The end of values in braces.
fn braces_end(more: Option<Position>) -> &'static str {
    match more {
        Some(_) => ",}",
        None => "}",
    }
}

/// The end of what is created.
fn args_end(body: Option<Span>) -> &'static str {
    match body {
        Some(_) => ") body",
        None => ")",
    }
}

#[cycle(write_exprs)]
fn put_created_form(out: &mut String, x: &JExpr, room: usize) -> Result<(), NoMemory> {
    match x {
        JExpr::New(_, made, _, args, _, _, body) => {
            out.push_str("new ")?;
            put_created(out, made)?;
            out.push('(')?;
            put_exprs(out, args.as_slice(), room)?;
            out.push_str(args_end(*body))?;
        }
        JExpr::NewArray(_, of, _, size, _, more) => {
            out.push_str("new ")?;
            put_type(out, of)?;
            out.push('[')?;
            put_expr(out, size.get(), room)?;
            out.push(']')?;
            put_brackets(out, more.as_slice())?;
        }
        JExpr::NewFilled(_, of, brackets, _, items, _, more, _) => {
            out.push_str("new ")?;
            put_type(out, of)?;
            put_brackets(out, brackets.as_slice())?;
            out.push('{')?;
            put_exprs(out, items.as_slice(), room)?;
            out.push_str(braces_end(*more))?;
        }
        JExpr::Braces(_, items, _, more, _) => {
            out.push('{')?;
            put_exprs(out, items.as_slice(), room)?;
            out.push_str(braces_end(*more))?;
        }
        _ => (),
    }
    Ok(())
}

#[cycle(write_exprs)]
fn put_call(out: &mut String, x: &JExpr, room: usize) -> Result<(), NoMemory> {
    match x {
        JExpr::Call(name, _, _, args, _, _) => {
            out.push_str(name.as_str())?;
            out.push('(')?;
            put_exprs(out, args.as_slice(), room)?;
            out.push(')')?;
        }
        JExpr::SuperCall(_, _, name, _, _, args, _, _) => {
            out.push_str("super.")?;
            out.push_str(name.as_str())?;
            out.push('(')?;
            put_exprs(out, args.as_slice(), room)?;
            out.push(')')?;
        }
        JExpr::Method(left, _, name, _, _, args, _, _) => {
            put_expr(out, left.get(), room)?;
            out.push('.')?;
            out.push_str(name.as_str())?;
            out.push('(')?;
            put_exprs(out, args.as_slice(), room)?;
            out.push(')')?;
        }
        _ => put_created_form(out, x, room)?,
    }
    Ok(())
}

#[cycle(write_exprs)]
fn put_primary(out: &mut String, x: &JExpr, room: usize) -> Result<(), NoMemory> {
    match x {
        JExpr::Name(name, _) => out.push_str(name.as_str())?,
        JExpr::Literal(literal, _) => put_literal(out, literal)?,
        JExpr::This(_) => out.push_str("this")?,
        JExpr::Paren(_, inner, _) => {
            out.push_str("paren(")?;
            put_expr(out, inner.get(), room)?;
            out.push(')')?;
        }
        JExpr::Field(left, _, name, _) => {
            put_expr(out, left.get(), room)?;
            out.push('.')?;
            out.push_str(name.as_str())?;
        }
        JExpr::Element(left, _, index, _) => {
            put_expr(out, left.get(), room)?;
            out.push('[')?;
            put_expr(out, index.get(), room)?;
            out.push(']')?;
        }
        _ => put_call(out, x, room)?,
    }
    Ok(())
}

#[cycle(write_exprs)]
fn put_unary(out: &mut String, x: &JExpr, room: usize) -> Result<(), NoMemory> {
    match x {
        JExpr::Postfix(left, op, _) => {
            out.push('(')?;
            put_expr(out, left.get(), room)?;
            out.push_str(postfix_sign(*op))?;
            out.push(')')?;
        }
        JExpr::Prefix(op, _, inner) => {
            out.push('(')?;
            out.push_str(prefix_sign(*op))?;
            put_expr(out, inner.get(), room)?;
            out.push(')')?;
        }
        JExpr::MinusLeast(_, literal, _) => {
            out.push_str("(-least ")?;
            put_literal(out, literal)?;
            out.push(')')?;
        }
        JExpr::Cast(_, to, _, inner) => {
            out.push_str("cast(")?;
            put_type(out, to)?;
            out.push_str(", ")?;
            put_expr(out, inner.get(), room)?;
            out.push(')')?;
        }
        _ => put_primary(out, x, room)?,
    }
    Ok(())
}

#[cycle(write_exprs)]
fn put_lambda(out: &mut String, x: &JExpr, room: usize) -> Result<(), NoMemory> {
    match x {
        JExpr::Lambda(params, _, body) => {
            out.push_str("lambda(")?;
            put_params(out, params)?;
            out.push_str(", ")?;
            put_expr(out, body.get(), room)?;
            out.push(')')?;
        }
        JExpr::LambdaBlock(params, _, _) => {
            out.push_str("lambda(")?;
            put_params(out, params)?;
            out.push_str(", block)")?;
        }
        _ => put_unary(out, x, room)?,
    }
    Ok(())
}

#[cycle(write_exprs)]
fn put_operands(out: &mut String, x: &JExpr, room: usize) -> Result<(), NoMemory> {
    match x {
        JExpr::Binary(left, op, _, right) => {
            put_expr(out, left.get(), room)?;
            out.push_str(binary_sign(*op))?;
            put_expr(out, right.get(), room)?;
        }
        JExpr::Instanceof(left, _, to) => {
            put_expr(out, left.get(), room)?;
            out.push_str(" instanceof ")?;
            put_type(out, to)?;
        }
        JExpr::Conditional(left, _, middle, _, last) => {
            put_expr(out, left.get(), room)?;
            out.push_str(" ? ")?;
            put_expr(out, middle.get(), room)?;
            out.push_str(" : ")?;
            put_expr(out, last.get(), room)?;
        }
        JExpr::Assign(left, op, _, right) => {
            put_expr(out, left.get(), room)?;
            out.push_str(assign_sign(*op))?;
            put_expr(out, right.get(), room)?;
        }
        _ => (),
    }
    Ok(())
}

/// Whether the form has an operand on each side.
fn is_infix(x: &JExpr) -> bool {
    match x {
        JExpr::Binary(_, _, _, _)
        | JExpr::Instanceof(_, _, _)
        | JExpr::Conditional(_, _, _, _, _)
        | JExpr::Assign(_, _, _, _) => true,
        _ => false,
    }
}

/// A tree with fewer levels than `room`.
#[cycle(write_exprs)]
fn put_expr(out: &mut String, x: &JExpr, room: usize) -> Result<(), NoMemory> {
    let Some(less) = room.checked_sub(1) else {
        out.push_str("too deep")?;
        return Ok(());
    };
    if !is_infix(x) {
        return put_lambda(out, x, less);
    }
    out.push('(')?;
    put_operands(out, x, less)?;
    out.push(')')?;
    Ok(())
}

#[cycle(write_exprs)]
fn put_exprs(out: &mut String, items: &[JExpr], room: usize) -> Result<(), NoMemory> {
    let mut is_first = true;
    for item in items {
        put_comma(out, is_first)?;
        put_expr(out, item, room)?;
        is_first = false;
    }
    Ok(())
}

/// The shape of a tree: each operator with its operands in parentheses, written parentheses as `paren(..)`, a cast as
/// `cast(int, a)`, a lambda as `lambda(x, a)`, a block as `block`, the body of an anonymous class as ` body`.
pub fn put_shape(out: &mut String, tree: &JExpr) -> Result<(), NoMemory> {
    put_expr(out, tree, 1000)
}
