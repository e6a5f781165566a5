//! Types, names and parameters as texts.

use crate::signs::primitive_word;
use j2k_base::NoMemory;
use java_tree::{JBrackets, JCreated, JParam, JParams, JQualified, JType, JTypedParam};

/// What stands before an item.
pub fn put_comma(out: &mut String, is_first: bool) -> Result<(), NoMemory> {
    if !is_first {
        out.push_str(", ")?;
    }
    Ok(())
}

fn put_qualified(out: &mut String, name: &JQualified) -> Result<(), NoMemory> {
    out.push_str(name.name.as_str())?;
    for dotted in name.rest.as_slice() {
        out.push('.')?;
        out.push_str(dotted.name.as_str())?;
    }
    Ok(())
}

pub fn put_brackets(out: &mut String, brackets: &[JBrackets]) -> Result<(), NoMemory> {
    for _ in brackets {
        out.push_str("[]")?;
    }
    Ok(())
}

/// A type with fewer levels than `room`.
#[cycle(write_types)]
fn put_type_within(out: &mut String, x: &JType, room: usize) -> Result<(), NoMemory> {
    let Some(less) = room.checked_sub(1) else {
        out.push_str("too deep")?;
        return Ok(());
    };
    match x {
        JType::Primitive(kind, _) => out.push_str(primitive_word(*kind))?,
        JType::Class(name) => put_qualified(out, name)?,
        JType::Applied(name, _, args, _, _, _) => {
            put_qualified(out, name)?;
            out.push('<')?;
            put_types(out, args.as_slice(), less)?;
            out.push('>')?;
        }
        JType::Array(element, brackets) => {
            put_type_within(out, element.get(), less)?;
            put_brackets(out, brackets.as_slice())?;
        }
    }
    Ok(())
}

#[cycle(write_types)]
fn put_types(out: &mut String, items: &[JType], room: usize) -> Result<(), NoMemory> {
    let mut is_first = true;
    for item in items {
        put_comma(out, is_first)?;
        put_type_within(out, item, room)?;
        is_first = false;
    }
    Ok(())
}

pub fn put_type(out: &mut String, x: &JType) -> Result<(), NoMemory> {
    put_type_within(out, x, 1000)
}

pub fn put_created(out: &mut String, x: &JCreated) -> Result<(), NoMemory> {
    match x {
        JCreated::Type(of) => put_type(out, of),
        JCreated::Inferred(name, _, _, _) => {
            put_qualified(out, name)?;
            out.push_str("<>")?;
            Ok(())
        }
    }
}

fn put_names(out: &mut String, names: &[JParam]) -> Result<(), NoMemory> {
    let mut is_first = true;
    for param in names {
        put_comma(out, is_first)?;
        out.push_str(param.name.as_str())?;
        is_first = false;
    }
    Ok(())
}

fn put_typed(out: &mut String, param: &JTypedParam) -> Result<(), NoMemory> {
    if param.is_final.is_some() {
        out.push_str("final ")?;
    }
    put_type(out, &param.kind)?;
    out.push(' ')?;
    out.push_str(param.name.as_str())?;
    Ok(())
}

fn put_all_typed(out: &mut String, params: &[JTypedParam]) -> Result<(), NoMemory> {
    let mut is_first = true;
    for param in params {
        put_comma(out, is_first)?;
        put_typed(out, param)?;
        is_first = false;
    }
    Ok(())
}

pub fn put_params(out: &mut String, x: &JParams) -> Result<(), NoMemory> {
    match x {
        JParams::One(param) => out.push_str(param.name.as_str())?,
        JParams::Several(_, names, _, _) => {
            out.push('(')?;
            put_names(out, names.as_slice())?;
            out.push(')')?;
        }
        JParams::Typed(_, params, _, _) => {
            out.push('(')?;
            put_all_typed(out, params.as_slice())?;
            out.push(')')?;
        }
    }
    Ok(())
}
