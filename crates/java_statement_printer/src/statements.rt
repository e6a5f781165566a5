//! What stands in a statement besides other statements.

ghost use Rattle.std.specs.Prelude.{◌≡◌, ◌++◌, [], ◌∷◌, IfOk, map};
ghost use Rattle.java_tree.specs.Seen.{Token, word_seen};
ghost use Rattle.java_tree.specs.Trees.{listed, more_tokens, tokens};
ghost use Rattle.java_tree.specs.declared.tokens.Mark.TheVariants as m;
ghost use Rattle.java_statement_grammar.specs.Heads as h;
ghost use Rattle.java_expr_printer.specs.Shown.{shown};

use j2k_base::NoMemory;
use java_expr_printer::{
    Written, put, put_args, put_expr, put_final, put_keyword, put_list, put_qualified, put_type,
    put_word,
};
use java_statement_grammar::{
    JDeclaration, JDeclarator, JForHead, JForStart, JLabelName, JLock, JSimple, JSwitchLabel,
    JValue,
};
use java_tree::{JExpr, Keyword, Mark, Position};
use sqlite_items::Items;
use std::alloc::Global;

#[tactic(auto, using(java_expr_printer::proofs::LawsToCite::joins))]
fn put_value(alloc: Global, out: &mut Vec<Written>, x: &Option<JValue>) -> Result<(), NoMemory>
    ensures { IfOk result (λ u. shown out.new.items ≡ shown out.old.items ++ h.value_tokens x.now) }
{
    match x {
        None => Ok(()),
        Some(value) => {
            put(out, Mark::Assign, value.at)?;
            put_expr(alloc, out, &value.tree)
        }
    }
}

#[tactic(auto, using(java_expr_printer::proofs::LawsToCite::joins))]
fn put_declarator(alloc: Global, out: &mut Vec<Written>, x: &JDeclarator) -> Result<(), NoMemory>
    ensures { IfOk result (λ u. shown out.new.items ≡ shown out.old.items ++ h.declarator_tokens x.now) }
{
    put_word(alloc, out, &x.name, x.at)?;
    put_value(alloc, out, &x.value)
}

#[tactic(auto, using(java_expr_printer::proofs::LawsToCite::joins))]
fn other_declarators(
    alloc: Global,
    out: &mut Vec<Written>,
    items: &[JDeclarator],
    commas: &[Position],
) -> Result<(), NoMemory>
    ensures { IfOk result (λ u. shown out.new.items ≡ shown out.old.items ++ more_tokens commas.entry.now (map h.declarator_tokens items.entry.now)) }
{
    let mut items = items;
    let mut commas = commas;
    while let [at, rest @ ..] = commas {
        let [item, more @ ..] = items else {
            return Ok(());
        };
        put(out, Mark::Comma, *at)?;
        put_declarator(alloc, out, item)?;
        items = more;
        commas = rest;
    }
    Ok(())
}

/// Declared names with commas between them.
#[tactic(auto, using(java_expr_printer::proofs::LawsToCite::joins))]
fn put_declarators(
    alloc: Global,
    out: &mut Vec<Written>,
    items: &[JDeclarator],
    commas: &[Position],
) -> Result<(), NoMemory>
    ensures { IfOk result (λ u. shown out.new.items ≡ shown out.old.items ++ listed commas.now (map h.declarator_tokens items.now)) }
{
    let [first, more @ ..] = items else {
        return Ok(());
    };
    put_declarator(alloc, out, first)?;
    other_declarators(alloc, out, more, commas)
}

/// A declaration of variables (JLS 14.4).
#[tactic(auto, using(java_expr_printer::proofs::LawsToCite::joins))]
pub fn put_declaration(
    alloc: Global,
    out: &mut Vec<Written>,
    x: &JDeclaration,
) -> Result<(), NoMemory>
    ensures { IfOk result (λ u. shown out.new.items ≡ shown out.old.items ++ h.declaration_tokens x.now) }
{
    put_final(out, x.is_final)?;
    put_type(alloc, out, &x.kind)?;
    put_declarators(alloc, out, x.names.as_slice(), x.commas.as_slice())
}

#[tactic(auto, using(java_expr_printer::proofs::LawsToCite::joins))]
fn put_label(alloc: Global, out: &mut Vec<Written>, x: &Option<JLabelName>) -> Result<(), NoMemory>
    ensures { IfOk result (λ u. shown out.new.items ≡ shown out.old.items ++ h.label_tokens x.now) }
{
    match x {
        None => Ok(()),
        Some(label) => put_word(alloc, out, &label.name, label.at),
    }
}

#[tactic(auto, using(java_expr_printer::proofs::LawsToCite::joins))]
fn put_maybe(alloc: Global, out: &mut Vec<Written>, x: &Option<JExpr>) -> Result<(), NoMemory>
    ensures { IfOk result (λ u. shown out.new.items ≡ shown out.old.items ++ h.maybe_tokens x.now) }
{
    match x {
        None => Ok(()),
        Some(tree) => put_expr(alloc, out, tree),
    }
}

/// `break` or `continue`, with its label where it has one (JLS 14.15, 14.16).
#[tactic(auto, using(java_expr_printer::proofs::LawsToCite::joins))]
fn put_jump(
    alloc: Global,
    out: &mut Vec<Written>,
    word: Keyword,
    at: Position,
    label: &Option<JLabelName>,
) -> Result<(), NoMemory>
    ensures { IfOk result (λ u. shown out.new.items ≡ shown out.old.items ++ word_seen word at ∷ h.label_tokens label.now) }
{
    put_keyword(out, word, at)?;
    put_label(alloc, out, label)
}

/// A call of another constructor (JLS 8.8.7.1).
#[tactic(auto, using(java_expr_printer::proofs::LawsToCite::joins))]
fn put_chained(
    alloc: Global,
    out: &mut Vec<Written>,
    word: Keyword,
    at: Position,
    lp: Position,
    items: &Items<JExpr>,
    commas: &Items<Position>,
    rp: Position,
) -> Result<(), NoMemory>
    ensures { IfOk result (λ u. shown out.new.items ≡ shown out.old.items ++ word_seen word at ∷ Token.Sign m.OpenRound lp ∷ (listed commas.now (map tokens items.now) ++ Token.Sign m.CloseRound rp ∷ [])) }
{
    put_keyword(out, word, at)?;
    put_args(alloc, out, lp, items, commas, rp)
}

/// What stands before the `;` of a statement that holds no other (JLS 14).
#[tactic(auto, using(java_expr_printer::proofs::LawsToCite::joins))]
pub fn put_simple(alloc: Global, out: &mut Vec<Written>, x: &JSimple) -> Result<(), NoMemory>
    ensures { IfOk result (λ u. shown out.new.items ≡ shown out.old.items ++ h.simple_tokens x.now) }
{
    match x {
        JSimple::Empty => Ok(()),
        JSimple::Declaration(declaration) => put_declaration(alloc, out, declaration),
        JSimple::Expression(tree) => put_expr(alloc, out, tree),
        JSimple::Break(at, label) => put_jump(alloc, out, Keyword::Break, *at, label),
        JSimple::Continue(at, label) => put_jump(alloc, out, Keyword::Continue, *at, label),
        JSimple::Return(at, tree) => {
            put_keyword(out, Keyword::Return, *at)?;
            put_maybe(alloc, out, tree)
        }
        JSimple::Throw(at, tree) => {
            put_keyword(out, Keyword::Throw, *at)?;
            put_expr(alloc, out, tree)
        }
        JSimple::ThisCall(at, lp, items, commas, rp) => {
            put_chained(alloc, out, Keyword::This, *at, *lp, items, commas, *rp)
        }
        JSimple::SuperCall(at, lp, items, commas, rp) => {
            put_chained(alloc, out, Keyword::Super, *at, *lp, items, commas, *rp)
        }
    }
}

#[tactic(auto, using(java_expr_printer::proofs::LawsToCite::joins))]
fn put_start(alloc: Global, out: &mut Vec<Written>, x: &JForStart) -> Result<(), NoMemory>
    ensures { IfOk result (λ u. shown out.new.items ≡ shown out.old.items ++ h.start_tokens x.now) }
{
    match x {
        JForStart::Declaration(declaration) => put_declaration(alloc, out, declaration),
        JForStart::Expressions(items, commas) => {
            put_list(alloc, out, items.as_slice(), commas.as_slice())
        }
    }
}

/// What stands in the parentheses of a `for` (JLS 14.14).
#[tactic(auto, using(java_expr_printer::proofs::LawsToCite::joins))]
pub fn put_for(alloc: Global, out: &mut Vec<Written>, x: &JForHead) -> Result<(), NoMemory>
    ensures { IfOk result (λ u. shown out.new.items ≡ shown out.old.items ++ h.for_tokens x.now) }
{
    match x {
        JForHead::Basic(start, first, condition, second, updates, commas) => {
            put_start(alloc, out, start)?;
            put(out, Mark::Semicolon, *first)?;
            put_maybe(alloc, out, condition)?;
            put(out, Mark::Semicolon, *second)?;
            put_list(alloc, out, updates.as_slice(), commas.as_slice())
        }
        JForHead::Each(is_final, kind, name, at, colon, walked) => {
            put_final(out, *is_final)?;
            put_type(alloc, out, kind)?;
            put_word(alloc, out, name, *at)?;
            put(out, Mark::Colon, *colon)?;
            put_expr(alloc, out, walked)
        }
    }
}

/// What stands in the parentheses of a synchronized statement (JLS 14.19).
#[tactic(auto, using(java_expr_printer::proofs::LawsToCite::joins))]
pub fn put_lock(alloc: Global, out: &mut Vec<Written>, x: &JLock) -> Result<(), NoMemory>
    ensures { IfOk result (λ u. shown out.new.items ≡ shown out.old.items ++ h.lock_tokens x.now) }
{
    match x {
        JLock::Expression(tree) => put_expr(alloc, out, tree),
        JLock::Class(name, dot, at) => {
            put_qualified(alloc, out, name)?;
            put(out, Mark::Dot, *dot)?;
            put_keyword(out, Keyword::Class, *at)
        }
    }
}

/// A label of a switch (JLS 14.11).
#[tactic(auto, using(java_expr_printer::proofs::LawsToCite::joins))]
pub fn put_switch(alloc: Global, out: &mut Vec<Written>, x: &JSwitchLabel) -> Result<(), NoMemory>
    ensures { IfOk result (λ u. shown out.new.items ≡ shown out.old.items ++ h.switch_tokens x.now) }
{
    match x {
        JSwitchLabel::Case(at, tree, colon) => {
            put_keyword(out, Keyword::Case, *at)?;
            put_expr(alloc, out, tree)?;
            put(out, Mark::Colon, *colon)
        }
        JSwitchLabel::Default(at, colon) => {
            put_keyword(out, Keyword::Default, *at)?;
            put(out, Mark::Colon, *colon)
        }
    }
}
