//! The calls. Pieces spell at most one head of each kind, so each answers the one that they spell.

ghost use Rattle.std.specs.Prelude.{◌≡◌, IfOk};
ghost use Rattle.java_token_cursor.specs.Shown.{shown};
ghost use Rattle.java_statement_grammar.specs.Heads.{ForSpells, LockSpells, SimpleSpells, SwitchSpells};
ghost use Rattle.java_statement_grammar.specs.Reading as h;
ghost use Rattle.java_declaration_parser.specs.Found.{TheOne};

use crate::labels::{lock_read, switch_read};
use crate::loops::for_read;
use crate::statements::simple_read;
use j2k_base::NoMemory;
use java_statement_grammar::{JForHead, JLock, JSimple, JSwitchLabel};
use java_token_cursor::Pieces;
use std::alloc::Global;

/// The simple statement that the pieces before a `;` spell, with parts no deeper than `depth`;
/// None where they spell none.
pub fn simple<'a>(
    alloc: Global,
    pieces: Pieces<'a>,
    depth: usize,
) -> Result<Option<JSimple>, NoMemory>
    ensures read { IfOk result (λ x. x ≡ h.simple_read depth (shown pieces.now)) }
    ensures spelled { IfOk result (TheOne (λ x. SimpleSpells depth x (shown pieces.now))) }
{
    simple_read(alloc, pieces, depth)
}

/// The head that the pieces in the parentheses of a `for` spell, with parts no deeper than
/// `depth`; None where they spell none.
pub fn for_head<'a>(
    alloc: Global,
    pieces: Pieces<'a>,
    depth: usize,
) -> Result<Option<JForHead>, NoMemory>
    ensures read { IfOk result (λ x. x ≡ h.for_read depth (shown pieces.now)) }
    ensures spelled { IfOk result (TheOne (λ x. ForSpells depth x (shown pieces.now))) }
{
    for_read(alloc, pieces, depth)
}

/// The lock that the pieces in the parentheses of a synchronized statement spell, no deeper than
/// `depth`; None where they spell none.
pub fn lock<'a>(alloc: Global, pieces: Pieces<'a>, depth: usize) -> Result<Option<JLock>, NoMemory>
    ensures read { IfOk result (λ x. x ≡ h.lock_read depth (shown pieces.now)) }
    ensures spelled { IfOk result (TheOne (λ x. LockSpells depth x (shown pieces.now))) }
{
    lock_read(alloc, pieces, depth)
}

/// The label of a switch that the pieces spell, no deeper than `depth`; None where they spell none.
pub fn switch_label<'a>(
    alloc: Global,
    pieces: Pieces<'a>,
    depth: usize,
) -> Result<Option<JSwitchLabel>, NoMemory>
    ensures read { IfOk result (λ x. x ≡ h.switch_read depth (shown pieces.now)) }
    ensures spelled { IfOk result (TheOne (λ x. SwitchSpells depth x (shown pieces.now))) }
{
    switch_read(alloc, pieces, depth)
}
