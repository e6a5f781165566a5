//! The lines of packages and imports.

ghost use Rattle.std.specs.Prelude.{◌≡◌};
ghost use Rattle.java_token_cursor.specs.Shown.{shown};
ghost use Rattle.java_type_parser.specs.Gives.{Gives, Always};
ghost use Rattle.java_expr_grammar.specs.Reading as r;
ghost use Rattle.java_member_grammar.specs.Reading as m;
ghost use Rattle.java_declaration_parser.specs.Found.{same};
ghost use Rattle.java_member_parser.specs.Steps.{import_at, package_at};

use crate::begins::star_first;
use j2k_base::NoMemory;
use java_declaration_parser::{at_end, semicolon};
use java_member_grammar::{JImport, JPackage};
use java_token_cursor::{Head, Pieces, first};
use java_tree::{JQualified, Keyword, Position};
use java_type_parser::{let_go, qualified};
use std::alloc::Global;

/// The line of a package with that name, where a `;` is what is left.
#[tactic(auto, using(crate::proofs::Rules::ends))]
fn package_by<'a>(at: Position, name: JQualified, pieces: Pieces<'a>) -> Option<JPackage>
    ensures { result ≡ r.whole (m.package_by at (name, shown pieces.now)) }
{
    let Some((end, rest)) = semicolon(pieces) else {
        let_go(name);
        return None;
    };
    if at_end(rest) {
        Some(JPackage { at, name, end })
    } else {
        let_go(name);
        None
    }
}

/// Behind the `package` at the position.
fn package_at<'a>(
    alloc: Global,
    at: Position,
    pieces: Pieces<'a>,
) -> Result<Option<JPackage>, NoMemory>
    ensures { Gives same Always (package_at at (shown pieces.now)) result }
{
    match first(pieces) {
        Head::Id(name, place, rest) => {
            let (name, rest) = qualified(alloc, name, place, rest)?;
            Ok(package_by(at, name, rest))
        }
        _ => Ok(None),
    }
}

/// The line that the pieces are.
#[tactic(auto, using(crate::proofs::Rules::looks))]
pub fn package_read<'a>(alloc: Global, pieces: Pieces<'a>) -> Result<Option<JPackage>, NoMemory>
    ensures { Gives same Always (m.package_line (shown pieces.now)) result }
{
    match first(pieces) {
        Head::Word(Keyword::Package, at, rest) => package_at(alloc, at, rest),
        _ => Ok(None),
    }
}

/// The line of an import with that name, where a `;`, with `.*` before it or not, is what is left.
#[tactic(auto, using(crate::proofs::Rules::ends))]
fn import_by<'a>(at: Position, name: JQualified, pieces: Pieces<'a>) -> Option<JImport>
    ensures { result ≡ r.whole (m.import_by at (name, shown pieces.now)) }
{
    let (star, rest) = star_first(pieces);
    let Some((end, rest)) = semicolon(rest) else {
        let_go(name);
        return None;
    };
    if at_end(rest) {
        Some(JImport {
            at,
            name,
            star,
            end,
        })
    } else {
        let_go(name);
        None
    }
}

/// Behind the `import` at the position.
fn import_at<'a>(
    alloc: Global,
    at: Position,
    pieces: Pieces<'a>,
) -> Result<Option<JImport>, NoMemory>
    ensures { Gives same Always (import_at at (shown pieces.now)) result }
{
    match first(pieces) {
        Head::Id(name, place, rest) => {
            let (name, rest) = qualified(alloc, name, place, rest)?;
            Ok(import_by(at, name, rest))
        }
        _ => Ok(None),
    }
}

/// The line that the pieces are.
#[tactic(auto, using(crate::proofs::Rules::looks))]
pub fn import_read<'a>(alloc: Global, pieces: Pieces<'a>) -> Result<Option<JImport>, NoMemory>
    ensures { Gives same Always (m.import_line (shown pieces.now)) result }
{
    match first(pieces) {
        Head::Word(Keyword::Import, at, rest) => import_at(alloc, at, rest),
        _ => Ok(None),
    }
}
