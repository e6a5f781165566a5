//! Types before their bodies.

ghost use Rattle.std.specs.Prelude.{◌≡◌};
ghost use Rattle.java_token_cursor.specs.Shown.{shown};
ghost use Rattle.java_type_parser.specs.Gives.{Gives, Always};
ghost use Rattle.java_member_grammar.specs.Reading as m;
ghost use Rattle.java_declaration_parser.specs.Found.{found, same};
ghost use Rattle.java_member_parser.specs.Steps.{class_read, enum_read, interface_read};

use crate::modifiers::modifiers;
use crate::params::{bound, type_params};
use crate::parts::{extends_list, implements};
use j2k_base::NoMemory;
use java_declaration_parser::at_end;
use java_member_grammar::{JModifier, JTypeHead};
use java_token_cursor::{Head, Pieces, first};
use java_tree::{JParam, Keyword, Position};
use java_type_parser::{found_or_let_go, ident, let_go};
use sqlite_items::Items;
use std::alloc::Global;

/// A class behind its `class`.
#[tactic(auto, unfolding(java_member_grammar::specs::Reading::class_head))]
fn class_read<'a>(
    alloc: Global,
    mods: Items<JModifier>,
    word: Position,
    pieces: Pieces<'a>,
    depth: usize,
) -> Result<Option<(JTypeHead, Pieces<'a>)>, NoMemory>
    ensures { Gives found Always (class_read depth mods word (shown pieces.now)) result }
{
    let (name, rest) = found_or_let_go!(ident(alloc, pieces), mods);
    let (params, rest) = found_or_let_go!(type_params(alloc, rest, depth), mods, name);
    let (above, rest) = found_or_let_go!(bound(alloc, rest, depth), mods, name, params);
    let (faces, rest) = found_or_let_go!(implements(alloc, rest, depth), mods, name, params, above);
    let JParam { name, at } = name;
    let head = JTypeHead::Class(mods, word, name, at, params, above, faces);
    Ok(Some((head, rest)))
}

/// An interface behind its `interface`.
#[tactic(auto, unfolding(java_member_grammar::specs::Reading::interface_head))]
fn interface_read<'a>(
    alloc: Global,
    mods: Items<JModifier>,
    word: Position,
    pieces: Pieces<'a>,
    depth: usize,
) -> Result<Option<(JTypeHead, Pieces<'a>)>, NoMemory>
    ensures { Gives found Always (interface_read depth mods word (shown pieces.now)) result }
{
    let (name, rest) = found_or_let_go!(ident(alloc, pieces), mods);
    let (params, rest) = found_or_let_go!(type_params(alloc, rest, depth), mods, name);
    let (above, rest) = found_or_let_go!(extends_list(alloc, rest, depth), mods, name, params);
    let JParam { name, at } = name;
    let head = JTypeHead::Interface(mods, word, name, at, params, above);
    Ok(Some((head, rest)))
}

/// An enum behind its `enum`.
#[tactic(auto, unfolding(java_member_grammar::specs::Reading::enum_head))]
fn enum_read<'a>(
    alloc: Global,
    mods: Items<JModifier>,
    word: Position,
    pieces: Pieces<'a>,
    depth: usize,
) -> Result<Option<(JTypeHead, Pieces<'a>)>, NoMemory>
    ensures { Gives found Always (enum_read depth mods word (shown pieces.now)) result }
{
    let (name, rest) = found_or_let_go!(ident(alloc, pieces), mods);
    let (faces, rest) = found_or_let_go!(implements(alloc, rest, depth), mods, name);
    let JParam { name, at } = name;
    let head = JTypeHead::Enum(mods, word, name, at, faces);
    Ok(Some((head, rest)))
}

/// A type behind its modifiers.
fn type_of<'a>(
    alloc: Global,
    mods: Items<JModifier>,
    pieces: Pieces<'a>,
    depth: usize,
) -> Result<Option<(JTypeHead, Pieces<'a>)>, NoMemory>
    ensures { Gives found Always (m.type_of depth mods (shown pieces.now)) result }
{
    match first(pieces) {
        Head::Word(Keyword::Class, at, rest) => class_read(alloc, mods, at, rest, depth),
        Head::Word(Keyword::Interface, at, rest) => interface_read(alloc, mods, at, rest, depth),
        Head::Word(Keyword::Enum, at, rest) => enum_read(alloc, mods, at, rest, depth),
        _ => {
            let_go(mods);
            Ok(None)
        }
    }
}

/// The head that the pieces are.
#[tactic(auto, using(crate::proofs::Rules::ends), unfolding(java_member_grammar::specs::Reading::type_head))]
pub fn type_head_read<'a>(
    alloc: Global,
    pieces: Pieces<'a>,
    depth: usize,
) -> Result<Option<JTypeHead>, NoMemory>
    ensures { Gives same Always (m.type_head depth (shown pieces.now)) result }
{
    let (mods, rest) = modifiers(alloc, pieces)?;
    let Some((head, rest)) = type_of(alloc, mods, rest, depth)? else {
        return Ok(None);
    };
    if at_end(rest) {
        Ok(Some(head))
    } else {
        let_go(head);
        Ok(None)
    }
}
