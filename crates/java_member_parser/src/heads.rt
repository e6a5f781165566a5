//! The calls. Pieces spell at most one of each, so each answers the one that they spell.

ghost use Rattle.std.specs.Prelude.{◌≡◌, true, false, IfOk};
ghost use Rattle.java_token_cursor.specs.Shown.{shown};
ghost use Rattle.java_member_grammar.specs.Heads.{ConstantsSpell, ImportSpells, PackageSpells, TypeHeadSpells};
ghost use Rattle.java_member_grammar.specs.Reading as m;
ghost use Rattle.java_declaration_parser.specs.Found.{TheOne};
ghost use Rattle.java_member_parser.specs.Found.{TheMember};

use crate::enums::constants_read;
use crate::files::{import_read, package_read};
use crate::members::{block_read, semicolon_read};
use crate::types::type_head_read;
use j2k_base::NoMemory;
use java_member_grammar::{JConstants, JImport, JMemberHead, JPackage, JTypeHead};
use java_token_cursor::Pieces;
use std::alloc::Global;

/// The head of a member that the pieces before a `;` spell, with parts no deeper than `depth` and the values of a
/// field at a depth of less than `value_depth`; None where they spell none (JLS 8.3, 8.4, 9.3, 9.4).
pub fn before_semicolon<'a>(
    alloc: Global,
    pieces: Pieces<'a>,
    depth: usize,
    value_depth: usize,
) -> Result<Option<JMemberHead>, NoMemory>
    ensures read { IfOk result (λ x. x ≡ m.before_semicolon depth value_depth (shown pieces.now)) }
    ensures spelled { IfOk result (TheMember depth value_depth false (shown pieces.now)) }
{
    semicolon_read(alloc, pieces, depth, value_depth)
}

/// The head of a member that the pieces before a block spell, with parts no deeper than `depth` and the values of a
/// field at a depth of less than `value_depth`; None where they spell none (JLS 8.4, 8.6, 8.7, 8.8).
pub fn before_block<'a>(
    alloc: Global,
    pieces: Pieces<'a>,
    depth: usize,
    value_depth: usize,
) -> Result<Option<JMemberHead>, NoMemory>
    ensures read { IfOk result (λ x. x ≡ m.before_block depth value_depth (shown pieces.now)) }
    ensures spelled { IfOk result (TheMember depth value_depth true (shown pieces.now)) }
{
    block_read(alloc, pieces, depth, value_depth)
}

/// The head of a type that the pieces before its body spell, with parts no deeper than `depth`; None where they spell
/// none (JLS 8.1, 8.9, 9.1).
pub fn type_head<'a>(
    alloc: Global,
    pieces: Pieces<'a>,
    depth: usize,
) -> Result<Option<JTypeHead>, NoMemory>
    ensures read { IfOk result (λ x. x ≡ m.type_head depth (shown pieces.now)) }
    ensures spelled { IfOk result (TheOne (λ x. TypeHeadSpells depth x (shown pieces.now))) }
{
    type_head_read(alloc, pieces, depth)
}

/// The constants of an enum that the pieces spell, with arguments no deeper than `depth`; None where they spell none
/// (JLS 8.9.1).
pub fn constants<'a>(
    alloc: Global,
    pieces: Pieces<'a>,
    depth: usize,
) -> Result<Option<JConstants>, NoMemory>
    ensures read { IfOk result (λ x. x ≡ m.constants depth (shown pieces.now)) }
    ensures spelled { IfOk result (TheOne (λ x. ConstantsSpell depth x (shown pieces.now))) }
{
    constants_read(alloc, pieces, depth)
}

/// The line of a package that the pieces spell; None where they spell none (JLS 7.4).
pub fn package_line<'a>(alloc: Global, pieces: Pieces<'a>) -> Result<Option<JPackage>, NoMemory>
    ensures read { IfOk result (λ x. x ≡ m.package_line (shown pieces.now)) }
    ensures spelled { IfOk result (TheOne (λ x. PackageSpells x (shown pieces.now))) }
{
    package_read(alloc, pieces)
}

/// The line of an import that the pieces spell; None where they spell none (JLS 7.5).
pub fn import_line<'a>(alloc: Global, pieces: Pieces<'a>) -> Result<Option<JImport>, NoMemory>
    ensures read { IfOk result (λ x. x ≡ m.import_line (shown pieces.now)) }
    ensures spelled { IfOk result (TheOne (λ x. ImportSpells x (shown pieces.now))) }
{
    import_read(alloc, pieces)
}
