// The words of a row: constants, kinds and operators.

use j2k_base::{Const, Kind, Op2};

const OPERATORS: [(&str, Op2); 19] = [
    ("Add", Op2::Add),
    ("Sub", Op2::Sub),
    ("Mul", Op2::Mul),
    ("Div", Op2::Div),
    ("Rem", Op2::Rem),
    ("Shl", Op2::Shl),
    ("Shr", Op2::Shr),
    ("Ushr", Op2::Ushr),
    ("And", Op2::And),
    ("Or", Op2::Or),
    ("Xor", Op2::Xor),
    ("Lt", Op2::Lt),
    ("Le", Op2::Le),
    ("Gt", Op2::Gt),
    ("Ge", Op2::Ge),
    ("Eq", Op2::Eq),
    ("Ne", Op2::Ne),
    ("AndAlso", Op2::AndAlso),
    ("OrElse", Op2::OrElse),
];

pub fn operator(word: &str) -> Option<Op2> {
    for (name, op) in OPERATORS {
        if name == word {
            return Some(op);
        }
    }
    None
}

pub fn kind(word: &str) -> Option<Kind> {
    match word {
        "Byte" => Some(Kind::Byte),
        "Short" => Some(Kind::Short),
        "Char" => Some(Kind::Char),
        "Int" => Some(Kind::Int),
        "Long" => Some(Kind::Long),
        _ => None,
    }
}

fn number(to: Kind, value: i64) -> Option<Const> {
    match to {
        Kind::Byte => Some(Const::Byte(i8::try_from(value).ok()?)),
        Kind::Short => Some(Const::Short(i16::try_from(value).ok()?)),
        Kind::Char => Some(Const::Char(u16::try_from(value).ok()?)),
        Kind::Int => Some(Const::Int(i32::try_from(value).ok()?)),
        Kind::Long => Some(Const::Long(value)),
    }
}

/// A constant, as `Byte(-128)`.
pub fn constant(word: &str) -> Option<Const> {
    match word {
        "Bool(true)" => return Some(Const::Bool(true)),
        "Bool(false)" => return Some(Const::Bool(false)),
        _ => (),
    }
    let (name, value) = word.strip_suffix(')')?.split_once('(')?;
    number(kind(name)?, value.parse::<i64>().ok()?)
}
