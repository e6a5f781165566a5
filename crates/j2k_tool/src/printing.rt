// The canonical text of a Kotlin tree.
ghost use Rattle.std.specs.Prelude.{◌≡◌, ◌++◌, Some, OnOk, IfOk};
ghost use Rattle.std.specs.List.{flat_map, list_all};
ghost use Rattle.kotlin_words.specs.Words.{contains_word};
ghost use Rattle.meanings.specs.KText as k;
ghost use Rattle.meanings.specs.KText.{name_text, operator_text, expression_text, statement_text, main_text, class_text, part_text, package_text, KText};

use j2k_base::{Name, NoMemory, Text};
use j2k_faults::push_number;
use kotlin_words::is_hard_keyword;
use meanings::kotlin::{
    KClass, KExpr, KFile, KMain, KOTLIN_CLASS, KOTLIN_CLASS_END, KOTLIN_CLASS_OPEN, KOTLIN_DOT,
    KOTLIN_EMPTY_LINE, KOTLIN_IS, KOTLIN_MAIN, KOTLIN_MAIN_END, KOTLIN_MAIN_OPEN, KOTLIN_PACKAGE,
    KOTLIN_PACKAGE_END, KOTLIN_PRINT, KOTLIN_PRINT_END, KOTLIN_VAL, KOTLIN_VAL_END, KStmt,
};
use meanings::operators::{MINUS, Operator, PLUS, TIMES};
use std::alloc::Global;

const OPEN: &str = "(";

const CLOSE: &str = ")";

const TICK: &str = "`";

/// The text of a Kotlin file.
#[tactic(auto, unfolding(meanings::specs::KText::KText))]
pub fn text_of(alloc: Global, file: &KFile) -> Result<Text, NoMemory>
    ensures { IfOk result (λ text. text ≡ KText file.now) }
{
    let mut out = Text::new(alloc);
    match (file.package.as_slice(), &file.class) {
        ([], None) => {}
        ([], Some(class)) => push_class(alloc, &mut out, class)?,
        ([first, parts @ ..], None) => push_package(&mut out, first, parts)?,
        ([first, parts @ ..], Some(class)) => {
            push_package(&mut out, first, parts)?;
            out.push_str(KOTLIN_EMPTY_LINE)?;
            push_class(alloc, &mut out, class)?;
        }
    }
    Ok(out)
}

/// A name, in backticks where it can't stand bare.
#[tactic(auto, unfolding(meanings::specs::KText::name_text))]
fn push_name(out: &mut Text, name: &Name) -> Result<(), NoMemory>
    ensures { OnOk result (out.new ≡ out.old ++ name_text name.now) }
{
    if is_bare(name.as_bytes()) {
        out.push_str(name.as_str())
    } else {
        out.push_str(TICK)?;
        out.push_str(name.as_str())?;
        out.push_str(TICK)
    }
}

/// Whether a name stands without backticks.
#[tactic(auto, unfolding(meanings::specs::KText::is_bare))]
fn is_bare(name: &[u8]) -> bool
    ensures { result ≡ k.is_bare name.now }
{
    is_word(name) && !is_blank(name) && !is_keyword(name)
}

/// Whether a name is an identifier of ASCII.
fn is_word(name: &[u8]) -> bool
    ensures { result ≡ k.is_word name.now }
{
    !name.is_empty() && begins_word(name[0]) && has_word_bytes(name)
}

fn has_word_bytes(name: &[u8]) -> bool
    ensures { result ≡ list_all k.is_word_byte name.now }
{
    name.iter().all(is_word_byte)
}

fn is_blank(name: &[u8]) -> bool
    ensures { result ≡ list_all k.is_underscore name.now }
{
    name.iter().all(is_underscore)
}

fn is_keyword(name: &[u8]) -> bool
    ensures { result ≡ k.is_keyword name.now }
{
    is_hard_keyword(name) || is_other_keyword(name)
}

fn is_other_keyword(name: &[u8]) -> bool
    ensures { result ≡ contains_word k.other_keywords name.now }
{
    name == b"catch".as_slice()
        || name == b"finally".as_slice()
        || name == b"synchronized".as_slice()
}

fn begins_word(byte: u8) -> bool
    ensures { result ≡ k.begins_word byte }
{
    byte.is_ascii_alphabetic() || byte == 95
}

fn is_word_byte(byte: &u8) -> bool
    ensures { result ≡ k.is_word_byte byte.now }
{
    byte.is_ascii_alphanumeric() || *byte == 95
}

fn is_underscore(byte: &u8) -> bool
    ensures { result ≡ k.is_underscore byte.now }
{
    *byte == 95
}

fn push_package(out: &mut Text, first: &Name, parts: &[Name]) -> Result<(), NoMemory>
    ensures { OnOk result (out.new ≡ out.old ++ package_text first.now parts.now) }
{
    out.push_str(KOTLIN_PACKAGE)?;
    push_name(out, first)?;
    push_parts(out, parts)?;
    out.push_str(KOTLIN_PACKAGE_END)
}

fn push_parts(out: &mut Text, parts: &[Name]) -> Result<(), NoMemory>
    ensures { OnOk result (out.new ≡ out.old ++ flat_map part_text parts.now) }
{
    for part in parts {
        push_part(out, part)?;
    }
    Ok(())
}

fn push_part(out: &mut Text, part: &Name) -> Result<(), NoMemory>
    ensures { OnOk result (out.new ≡ out.old ++ part_text part.now) }
{
    out.push_str(KOTLIN_DOT)?;
    push_name(out, part)
}

fn push_class(alloc: Global, out: &mut Text, class: &KClass) -> Result<(), NoMemory>
    ensures { OnOk result (out.new ≡ out.old ++ class_text class.now) }
{
    out.push_str(KOTLIN_CLASS)?;
    push_name(out, &class.name)?;
    out.push_str(KOTLIN_CLASS_OPEN)?;
    push_main(alloc, out, &class.main)?;
    out.push_str(KOTLIN_CLASS_END)
}

fn push_main(alloc: Global, out: &mut Text, main: &Option<KMain>) -> Result<(), NoMemory>
    ensures { OnOk result (out.new ≡ out.old ++ main_text main.now) }
{
    match main {
        Some(main) => push_some_main(alloc, out, main),
        None => Ok(()),
    }
}

fn push_some_main(alloc: Global, out: &mut Text, main: &KMain) -> Result<(), NoMemory>
    ensures { OnOk result (out.new ≡ out.old ++ main_text (Some main.now)) }
{
    push_head(out, &main.parameter)?;
    push_statements(alloc, out, main.body.as_slice())?;
    out.push_str(KOTLIN_MAIN_END)
}

/// What stands before the statements of `main`.
fn push_head(out: &mut Text, parameter: &Name) -> Result<(), NoMemory>
    ensures { OnOk result (out.new ≡ out.old ++ KOTLIN_MAIN.now ++ name_text parameter.now ++ KOTLIN_MAIN_OPEN.now) }
{
    out.push_str(KOTLIN_MAIN)?;
    push_name(out, parameter)?;
    out.push_str(KOTLIN_MAIN_OPEN)
}

fn push_statements(alloc: Global, out: &mut Text, statements: &[KStmt]) -> Result<(), NoMemory>
    ensures { OnOk result (out.new ≡ out.old ++ flat_map statement_text statements.now) }
{
    for statement in statements {
        push_statement(alloc, out, statement)?;
    }
    Ok(())
}

fn push_statement(alloc: Global, out: &mut Text, statement: &KStmt) -> Result<(), NoMemory>
    ensures { OnOk result (out.new ≡ out.old ++ statement_text statement.now) }
{
    match statement {
        KStmt::Val(name, value) => {
            out.push_str(KOTLIN_VAL)?;
            push_name(out, name)?;
            out.push_str(KOTLIN_IS)?;
            push_expression(alloc, out, value)?;
            out.push_str(KOTLIN_VAL_END)
        }
        KStmt::Print(value) => {
            out.push_str(KOTLIN_PRINT)?;
            push_expression(alloc, out, value)?;
            out.push_str(KOTLIN_PRINT_END)
        }
    }
}

#[tactic(auto, using(crate::proofs::Forms::texts))]
fn push_expression(alloc: Global, out: &mut Text, value: &KExpr) -> Result<(), NoMemory>
    ensures { OnOk result (out.new ≡ out.old ++ expression_text value.now) }
{
    match value {
        KExpr::Local(name) => push_name(out, name),
        KExpr::Number(number) => push_number(alloc, out, u64::from(*number)),
        KExpr::Paren(inner) => {
            out.push_str(OPEN)?;
            push_expression(alloc, out, inner.get())?;
            out.push_str(CLOSE)
        }
        KExpr::Binary(a, operator, b) => {
            push_expression(alloc, out, a.get())?;
            out.push_str(sign(*operator))?;
            push_expression(alloc, out, b.get())
        }
    }
}

fn sign(operator: Operator) -> &'static str
    ensures { result.now ≡ operator_text operator }
{
    match operator {
        Operator::Plus => PLUS,
        Operator::Minus => MINUS,
        Operator::Times => TIMES,
    }
}
