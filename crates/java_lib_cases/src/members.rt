// The members of a class.

use crate::classes::class_name;
use j2k_base::{Kind, NoMemory};
use java_lib::{LibKind, Mark, MemberRow, class_row, member_rows};

pub fn put_members(name: &[u8], out: &mut String) -> Result<(), NoMemory> {
    let Some(class) = class_row(name) else {
        return Ok(out.push_str("none")?);
    };
    let rows = member_rows(class.number);
    write!(out, "{}: ", rows.len())?;
    let mut between = "";
    for row in rows {
        out.push_str(between)?;
        put_row(row, out)?;
        between = ", ";
    }
    Ok(())
}

fn put_row(row: &MemberRow, out: &mut String) -> Result<(), NoMemory> {
    out.push_str(row.java)?;
    out.push_str("(")?;
    let mut between = "";
    for param in row.params {
        write!(
            out,
            "{between}{}{}",
            kind_text(param.kind),
            mark_text(param.mark)
        )?;
        between = ", ";
    }
    write!(
        out,
        ") {}{} {:?} {}",
        kind_text(row.result.kind),
        mark_text(row.result.mark),
        row.form,
        row.kotlin
    )?;
    put_throws(row.throws, out)
}

fn put_throws(throws: Option<u8>, out: &mut String) -> Result<(), NoMemory> {
    match throws {
        Some(number) => Ok(write!(out, " throws {}", class_name(number))?),
        None => Ok(()),
    }
}

fn kind_text(kind: LibKind) -> &'static str {
    match kind {
        LibKind::Void => "void",
        LibKind::Boolean => "boolean",
        LibKind::Number(Kind::Byte) => "byte",
        LibKind::Number(Kind::Short) => "short",
        LibKind::Number(Kind::Char) => "char",
        LibKind::Number(Kind::Int) => "int",
        LibKind::Number(Kind::Long) => "long",
        LibKind::Object(number) => class_name(number),
        LibKind::Variable(0) => "E",
        LibKind::Variable(_) => "V",
        LibKind::Chars => "char[]",
    }
}

fn mark_text(mark: Mark) -> &'static str {
    match mark {
        Mark::Plain => "",
        Mark::MayBeNull => " n",
        Mark::Checked => " c",
        Mark::NotNull => " u",
    }
}
