// Kotlin trees: a file's package and its class, whose companion's `main` declares integers and prints them.

use crate::names::Names;
use crate::operators::Operator;
use j2k_base::{Name, Series};
use sqlite_items::Boxed;

/// An expression of type `Int`.
#[derive(Debug, Drop)]
pub enum KExpr {
    /// The name of a local.
    Local(Name),
    /// A decimal literal.
    Number(u32),
    /// `(e)`.
    Paren(Boxed<KExpr>),
    /// The operands of an operator.
    Binary(Boxed<KExpr>, Operator, Boxed<KExpr>),
}

#[derive(Debug, Drop)]
pub enum KStmt {
    /// `val x: Int = e`
    Val(Name, KExpr),
    /// `println(e)`
    Print(KExpr),
}

pub type KStmts = Series<KStmt>;

/// `@JvmStatic fun main(p: Array<String>)` in a companion: the name of its parameter, and its statements.
#[derive(Debug, Drop)]
pub struct KMain {
    pub parameter: Name,
    pub body: KStmts,
}

/// A class, with its companion's `main` or without a member.
#[derive(Debug, Drop)]
pub struct KClass {
    pub name: Name,
    pub main: Option<KMain>,
}

/// A Kotlin file: the parts of its package's name, none where it has no package header, and its class or none.
#[derive(Debug, Drop)]
pub struct KFile {
    pub package: Names,
    pub class: Option<KClass>,
}

// The fixed parts of the canonical text.

pub const KOTLIN_PACKAGE: &str = "package ";

pub const KOTLIN_DOT: &str = ".";

pub const KOTLIN_PACKAGE_END: &str = "\n";

pub const KOTLIN_EMPTY_LINE: &str = "\n";

pub const KOTLIN_CLASS: &str = "class ";

pub const KOTLIN_CLASS_OPEN: &str = " {\n";

pub const KOTLIN_MAIN: &str = "    companion object {\n        @JvmStatic fun main(";

pub const KOTLIN_MAIN_OPEN: &str = ": Array<String>) {\n";

pub const KOTLIN_VAL: &str = "            val ";

pub const KOTLIN_IS: &str = ": Int = ";

pub const KOTLIN_VAL_END: &str = "\n";

pub const KOTLIN_PRINT: &str = "            println(";

pub const KOTLIN_PRINT_END: &str = ")\n";

pub const KOTLIN_MAIN_END: &str = "        }\n    }\n";

pub const KOTLIN_CLASS_END: &str = "}\n";
