//! Operators as they are written.

use java_tree::{AssignOp, BinaryOp, PostfixOp, PrefixOp, Primitive};

pub fn binary_sign(op: BinaryOp) -> &'static str {
    match op {
        BinaryOp::OrElse => " || ",
        BinaryOp::AndAlso => " && ",
        BinaryOp::BitOr => " | ",
        BinaryOp::BitXor => " ^ ",
        BinaryOp::BitAnd => " & ",
        BinaryOp::Equal => " == ",
        BinaryOp::NotEqual => " != ",
        BinaryOp::Less => " < ",
        BinaryOp::LessEqual => " <= ",
        BinaryOp::Greater => " > ",
        BinaryOp::GreaterEqual(_) => " >= ",
        BinaryOp::ShiftLeft => " << ",
        BinaryOp::ShiftRight(_) => " >> ",
        BinaryOp::ShiftUnsigned(_, _) => " >>> ",
        BinaryOp::Add => " + ",
        BinaryOp::Subtract => " - ",
        BinaryOp::Multiply => " * ",
        BinaryOp::Divide => " / ",
        BinaryOp::Remainder => " % ",
    }
}

pub fn assign_sign(op: AssignOp) -> &'static str {
    match op {
        AssignOp::Plain => " = ",
        AssignOp::Add => " += ",
        AssignOp::Subtract => " -= ",
        AssignOp::Multiply => " *= ",
        AssignOp::Divide => " /= ",
        AssignOp::Remainder => " %= ",
        AssignOp::ShiftLeft => " <<= ",
        AssignOp::ShiftRight(_, _) => " >>= ",
        AssignOp::ShiftUnsigned(_, _, _) => " >>>= ",
        AssignOp::BitAnd => " &= ",
        AssignOp::BitOr => " |= ",
        AssignOp::BitXor => " ^= ",
    }
}

pub fn prefix_sign(op: PrefixOp) -> &'static str {
    match op {
        PrefixOp::Plus => "+",
        PrefixOp::Minus => "-",
        PrefixOp::Increment => "++",
        PrefixOp::Decrement => "--",
        PrefixOp::Complement => "~",
        PrefixOp::Not => "!",
    }
}

pub fn postfix_sign(op: PostfixOp) -> &'static str {
    match op {
        PostfixOp::Increment => "++",
        PostfixOp::Decrement => "--",
    }
}

pub fn primitive_word(kind: Primitive) -> &'static str {
    match kind {
        Primitive::Byte => "byte",
        Primitive::Short => "short",
        Primitive::Char => "char",
        Primitive::Int => "int",
        Primitive::Long => "long",
        Primitive::Boolean => "boolean",
    }
}
