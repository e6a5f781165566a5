//! What a file declares.

ghost use Rattle.std.specs.Prelude.{◌≡◌, ◌<◌, ◌^◌, length, IfOk};
ghost use Rattle.java_tree.specs.Seen.{seen};
ghost use Rattle.java_unit_grammar.specs.Reading as r;
ghost use Rattle.java_token_cursor.specs.Shown.{shown};
ghost use Rattle.java_type_parser.specs.Gives.{Gives, Always};
ghost use Rattle.java_unit_parser.specs.Files.{declared_seen, imports_behind, one_seen, types_behind};

use crate::lists::{imports, package, types};
use j2k_base::NoMemory;
use java_body_cuts::{is_end, raw};
use java_member_grammar::{JImport, JPackage};
use java_token_cursor::Pieces;
use java_tree::JToken;
use java_type_parser::let_go;
use java_unit_grammar::JMember;
use sqlite_items::Items;
use std::alloc::Global;

/// What a file declares (JLS 7.3): the package line where one stands, the imports, and the types and
/// each `;` among them.
#[derive(Drop)]
pub struct Declared {
    pub within: Option<JPackage>,
    pub imports: Items<JImport>,
    pub types: Items<JMember>,
}

/// The lines of a file.
#[derive(Drop)]
struct Lines {
    within: Option<JPackage>,
    imports: Items<JImport>,
}

/// The types of a file behind its lines.
#[tactic(auto, using(crate::proofs::Units::ends))]
fn types_behind<'a>(
    alloc: Global,
    lines: Lines,
    pieces: Pieces<'a>,
    count: usize,
) -> Result<Option<Declared>, NoMemory>
    requires size { length pieces.now < 2 ^ 32 }
    ensures { Gives one_seen Always (types_behind count lines.within lines.imports (shown pieces.now)) result }
{
    match types(alloc, pieces, count) {
        Ok(Some((types, rest))) => {
            if is_end(rest) {
                let Lines { within, imports } = lines;
                Ok(Some(Declared {
                    within,
                    imports,
                    types,
                }))
            } else {
                let_go((lines, types));
                Ok(None)
            }
        }
        Ok(None) => {
            let_go(lines);
            Ok(None)
        }
        Err(error) => {
            let_go(lines);
            Err(error)
        }
    }
}

/// The imports of a file and what follows, behind the line of its package.
fn imports_behind<'a>(
    alloc: Global,
    within: Option<JPackage>,
    pieces: Pieces<'a>,
    count: usize,
) -> Result<Option<Declared>, NoMemory>
    requires size { length pieces.now < 2 ^ 32 }
    ensures { Gives one_seen Always (imports_behind count within (shown pieces.now)) result }
{
    match imports(alloc, pieces) {
        Ok(Some((imports, rest))) => types_behind(alloc, Lines { within, imports }, rest, count),
        Ok(None) => {
            let_go(within);
            Ok(None)
        }
        Err(error) => {
            let_go(within);
            Err(error)
        }
    }
}

#[tactic(auto, unfolding(java_unit_grammar::specs::Reading::unit_read))]
fn unit_of<'a>(
    alloc: Global,
    pieces: Pieces<'a>,
    count: usize,
) -> Result<Option<Declared>, NoMemory>
    requires size { length pieces.now < 2 ^ 32 }
    ensures { Gives one_seen Always (r.unit_read count (shown pieces.now)) result }
{
    match package(alloc, pieces) {
        Ok(Some((within, rest))) => imports_behind(alloc, within, rest, count),
        Ok(None) => Ok(None),
        Err(error) => Err(error),
    }
}

/// What the tokens of a file declare; None where they spell no unit (JLS 7.3). Fails only where memory
/// runs out.
#[tactic(auto, using(crate::proofs::Units::units))]
pub fn unit(alloc: Global, tokens: &[JToken]) -> Result<Option<Declared>, NoMemory>
    requires { length tokens.now < 2 ^ 32 }
    ensures { IfOk result (λ x. declared_seen x ≡ r.unit_read (length tokens.now) (seen tokens.now)) }
{
    let pieces = raw(alloc, tokens)?;
    unit_of(alloc, pieces.as_slice(), tokens.len())
}
