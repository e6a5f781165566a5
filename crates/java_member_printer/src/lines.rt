//! The constants of an enum, and the lines of packages and imports.

ghost use Rattle.std.specs.Prelude.{◌≡◌, ◌++◌, [], ◌∷◌, IfOk, map};
ghost use Rattle.java_tree.specs.Trees.{listed, more_tokens};
ghost use Rattle.java_member_grammar.specs.Heads as h;
ghost use Rattle.java_expr_printer.specs.Shown.{shown};

use j2k_base::NoMemory;
use java_expr_printer::{
    Written, put, put_args, put_keyword, put_qualified, put_trailing, put_word,
};
use java_member_grammar::{JArguments, JConstant, JConstants, JImport, JPackage, JStar};
use java_tree::{Keyword, Mark, Position};
use std::alloc::Global;

#[tactic(auto, using(java_expr_printer::proofs::LawsToCite::joins))]
fn put_star(out: &mut Vec<Written>, x: Option<JStar>) -> Result<(), NoMemory>
    ensures { IfOk result (λ u. shown out.new.items ≡ shown out.old.items ++ h.star_tokens x) }
{
    match x {
        None => Ok(()),
        Some(star) => {
            put(out, Mark::Dot, star.dot)?;
            put(out, Mark::Star, star.at)
        }
    }
}

/// The line of a package (JLS 7.4).
#[tactic(auto, using(java_expr_printer::proofs::LawsToCite::joins))]
pub fn put_package(alloc: Global, out: &mut Vec<Written>, x: &JPackage) -> Result<(), NoMemory>
    ensures { IfOk result (λ u. shown out.new.items ≡ shown out.old.items ++ h.package_tokens x.now) }
{
    put_keyword(out, Keyword::Package, x.at)?;
    put_qualified(alloc, out, &x.name)?;
    put(out, Mark::Semicolon, x.end)
}

/// The line of an import (JLS 7.5).
#[tactic(auto, using(java_expr_printer::proofs::LawsToCite::joins))]
pub fn put_import(alloc: Global, out: &mut Vec<Written>, x: &JImport) -> Result<(), NoMemory>
    ensures { IfOk result (λ u. shown out.new.items ≡ shown out.old.items ++ h.import_tokens x.now) }
{
    put_keyword(out, Keyword::Import, x.at)?;
    put_qualified(alloc, out, &x.name)?;
    put_star(out, x.star)?;
    put(out, Mark::Semicolon, x.end)
}

#[tactic(auto, using(java_expr_printer::proofs::LawsToCite::joins))]
fn put_arguments(
    alloc: Global,
    out: &mut Vec<Written>,
    x: &Option<JArguments>,
) -> Result<(), NoMemory>
    ensures { IfOk result (λ u. shown out.new.items ≡ shown out.old.items ++ h.arguments_tokens x.now) }
{
    match x {
        None => Ok(()),
        Some(list) => {
            put_args(
                alloc,
                out,
                list.opens,
                &list.items,
                &list.commas,
                list.closes,
            )
        }
    }
}

#[tactic(auto, using(java_expr_printer::proofs::LawsToCite::joins))]
fn put_constant(alloc: Global, out: &mut Vec<Written>, x: &JConstant) -> Result<(), NoMemory>
    ensures { IfOk result (λ u. shown out.new.items ≡ shown out.old.items ++ h.constant_tokens x.now) }
{
    put_word(alloc, out, &x.name, x.at)?;
    put_arguments(alloc, out, &x.arguments)
}

#[tactic(auto, using(java_expr_printer::proofs::LawsToCite::joins))]
fn other_constant_list(
    alloc: Global,
    out: &mut Vec<Written>,
    items: &[JConstant],
    commas: &[Position],
) -> Result<(), NoMemory>
    ensures { IfOk result (λ u. shown out.new.items ≡ shown out.old.items ++ more_tokens commas.entry.now (map h.constant_tokens items.entry.now)) }
{
    let mut items = items;
    let mut commas = commas;
    while let [at, rest @ ..] = commas {
        let [item, more @ ..] = items else {
            return Ok(());
        };
        put(out, Mark::Comma, *at)?;
        put_constant(alloc, out, item)?;
        items = more;
        commas = rest;
    }
    Ok(())
}

/// Constants with commas between them.
#[tactic(auto, using(java_expr_printer::proofs::LawsToCite::joins))]
fn put_constant_list(
    alloc: Global,
    out: &mut Vec<Written>,
    items: &[JConstant],
    commas: &[Position],
) -> Result<(), NoMemory>
    ensures { IfOk result (λ u. shown out.new.items ≡ shown out.old.items ++ listed commas.now (map h.constant_tokens items.now)) }
{
    let [first, more @ ..] = items else {
        return Ok(());
    };
    put_constant(alloc, out, first)?;
    other_constant_list(alloc, out, more, commas)
}

#[tactic(auto, using(java_expr_printer::proofs::LawsToCite::joins))]
fn put_end(out: &mut Vec<Written>, x: Option<Position>) -> Result<(), NoMemory>
    ensures { IfOk result (λ u. shown out.new.items ≡ shown out.old.items ++ h.end_tokens x) }
{
    match x {
        None => Ok(()),
        Some(at) => put(out, Mark::Semicolon, at),
    }
}

/// The constants of an enum (JLS 8.9.1).
#[tactic(auto, using(java_expr_printer::proofs::LawsToCite::joins))]
pub fn put_constants(alloc: Global, out: &mut Vec<Written>, x: &JConstants) -> Result<(), NoMemory>
    ensures { IfOk result (λ u. shown out.new.items ≡ shown out.old.items ++ h.constants_tokens x.now) }
{
    put_constant_list(alloc, out, x.items.as_slice(), x.commas.as_slice())?;
    put_trailing(out, x.more)?;
    put_end(out, x.end)
}
