//! The parts of a file, each with the pieces after it.

ghost use Rattle.std.specs.Prelude.{◌≡◌, ◌≤◌, ◌<◌, ◌^◌, length};
ghost use Rattle.java_unit_grammar.specs.Reading as r;
ghost use Rattle.java_token_cursor.specs.Shown.{shown};
ghost use Rattle.java_type_parser.specs.Gives.{Gives};
ghost use Rattle.java_block_parser.specs.Asks.{Shorter, found};

use crate::parts::at_line;
use crate::tops::{Tops, top};
use java_block_parser::{Answer, typed};
use java_body_cuts::{begins_import, begins_package, is_end};
use java_member_grammar::{JHome, JImport, JMemberHead, JPackage};
use java_member_parser::{import_line, package_line};
use java_token_cursor::{Head, Pieces, first};
use java_tree::Mark;
use java_type_parser::onward;
use java_unit_grammar::JMember;
use sqlite_items::{Boxed, Items};
use std::alloc::Global;

/// The line of the package, where one stands (JLS 7.4).
#[tactic(auto, unfolding(java_unit_grammar::specs::Reading::package_read))]
pub fn package<'a>(alloc: Global, pieces: Pieces<'a>) -> Answer<'a, Option<JPackage>>
    ensures { Gives found (Shorter pieces.now) (r.package_read (shown pieces.now)) result }
{
    if !begins_package(pieces) {
        return Ok(Some((None, pieces)));
    }
    let (text, rest) = at_line(pieces);
    let Some(package) = package_line(alloc, text)? else {
        return Ok(None);
    };
    Ok(Some((Some(package), rest)))
}

/// The line of an import (JLS 7.5).
#[tactic(auto, unfolding(java_unit_grammar::specs::Reading::import_read))]
fn import<'a>(alloc: Global, pieces: Pieces<'a>) -> Answer<'a, JImport>
    ensures { Gives found (Shorter pieces.now) (r.import_read (shown pieces.now)) result }
{
    let (text, rest) = at_line(pieces);
    let Some(import) = import_line(alloc, text)? else {
        return Ok(None);
    };
    Ok(Some((import, rest)))
}

fn ends_imports<'a>(pieces: Pieces<'a>) -> bool
    ensures { result ≡ r.no_import (shown pieces.now) }
{
    !begins_import(pieces)
}

/// The imports, as many as there are.
#[tactic(auto, using(java_type_parser::proofs::LawsToCite::length_shown))]
pub fn imports<'a>(alloc: Global, mut pieces: Pieces<'a>) -> Answer<'a, Items<JImport>>
    ensures { Gives found (Shorter pieces.entry.now) (r.until r.no_import r.import_read (shown pieces.entry.now)) result }
{
    let mut items = Items::new(alloc);
    for _turn in 0..pieces.len() {
        if ends_imports(pieces) {
            return Ok(Some((items, pieces)));
        }
        let Some((item, rest)) = import(alloc, pieces)? else {
            return Ok(None);
        };
        items.push(item)?;
        pieces = onward(rest);
    }
    if ends_imports(pieces) {
        Ok(Some((items, pieces)))
    } else {
        Ok(None)
    }
}

/// A type at the top of a file, or a `;` there (JLS 7.6).
#[tactic(auto, unfolding(java_unit_grammar::specs::Reading::file_read))]
fn file<'a>(alloc: Global, pieces: Pieces<'a>, types: usize) -> Answer<'a, Boxed<JMember>>
    requires size { length pieces.now < 2 ^ 32 }
    ensures { Gives found (Shorter pieces.now) (r.file_read types (shown pieces.now)) result }
{
    if let Head::Mark(Mark::Semicolon, at, rest) = first(pieces) {
        let tree = JMember::Declared(JMemberHead::Empty, Items::new(alloc), at);
        return Ok(Some((Boxed::new(alloc, tree)?, rest)));
    }
    let tops = Tops {
        alloc,
        types,
        read: top,
    };
    typed(alloc, &tops, pieces, JHome::File)
}

/// The types of a file and each `;` among them, as far as the end.
#[tactic(auto, using(java_type_parser::proofs::LawsToCite::length_shown))]
pub fn types<'a>(alloc: Global, mut pieces: Pieces<'a>, types: usize) -> Answer<'a, Items<JMember>>
    requires size { length pieces.now < 2 ^ 32 }
    ensures { Gives found (Shorter pieces.entry.now) (r.until r.is_end (r.file_read types) (shown pieces.entry.now)) result }
{
    let mut items = Items::new(alloc);
    for _turn in 0..pieces.len() {
        if is_end(pieces) {
            return Ok(Some((items, pieces)));
        }
        let Some((item, rest)) = file(alloc, pieces, types)? else {
            return Ok(None);
        };
        items.push(item.into_inner())?;
        pieces = onward(rest);
    }
    if is_end(pieces) {
        Ok(Some((items, pieces)))
    } else {
        Ok(None)
    }
}
