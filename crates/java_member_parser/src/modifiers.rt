//! Modifiers that come first.

ghost use Rattle.std.specs.Prelude.{◌≡◌, IfOk};
ghost use Rattle.java_token_cursor.specs.Heads.{Finds};
ghost use Rattle.java_token_cursor.specs.Shown.{shown};
ghost use Rattle.java_member_grammar.specs.Reading as m;
ghost use Rattle.java_member_parser.specs.Steps.{is_override, modifier_at, override_by};

use j2k_base::{Name, NoMemory};
use java_member_grammar::{JModifier, ModifierKind};
use java_token_cursor::{Head, Pieces, first};
use java_tree::{Keyword, Mark, Position};
use java_type_parser::onward;
use sqlite_items::Items;
use std::alloc::Global;

/// The modifier that the word is.
fn modifier_by(word: Keyword) -> Option<ModifierKind>
    ensures { result ≡ m.modifier_by word }
{
    match word {
        Keyword::Public => Some(ModifierKind::Public),
        Keyword::Protected => Some(ModifierKind::Protected),
        Keyword::Private => Some(ModifierKind::Private),
        Keyword::Abstract => Some(ModifierKind::Abstract),
        Keyword::Static => Some(ModifierKind::Static),
        Keyword::Final => Some(ModifierKind::Final),
        Keyword::Synchronized => Some(ModifierKind::Synchronized),
        Keyword::Volatile => Some(ModifierKind::Volatile),
        Keyword::Default => Some(ModifierKind::Default),
        _ => None,
    }
}

fn is_override(name: &Name) -> bool
    ensures { result ≡ is_override name.now }
{
    name.as_str() == "Override"
}

/// `Override` behind the `@` at the position.
fn override_by<'a>(at: Position, pieces: Pieces<'a>) -> Option<(JModifier, Pieces<'a>)>
    ensures { Finds (override_by at (shown pieces.now)) result }
{
    match first(pieces) {
        Head::Id(name, place, rest) => {
            if is_override(name) {
                let kind = ModifierKind::Override(place);
                Some((JModifier { kind, at }, rest))
            } else {
                None
            }
        }
        _ => None,
    }
}

/// A modifier that comes first.
fn modifier_at<'a>(pieces: Pieces<'a>) -> Option<(JModifier, Pieces<'a>)>
    ensures { Finds (modifier_at (shown pieces.now)) result }
{
    match first(pieces) {
        Head::Word(word, at, rest) => {
            let kind = modifier_by(word)?;
            Some((JModifier { kind, at }, rest))
        }
        Head::Mark(Mark::At, at, rest) => override_by(at, rest),
        _ => None,
    }
}

/// The modifiers that come first, and what follows.
#[tactic(auto, using(crate::proofs::Modified::modified))]
pub fn modifiers<'a>(
    alloc: Global,
    mut pieces: Pieces<'a>,
) -> Result<(Items<JModifier>, Pieces<'a>), NoMemory>
    ensures { IfOk result (λ x. (x.0, shown x.1.now) ≡ m.modifiers (shown pieces.entry.now)) }
{
    let mut mods = Items::new(alloc);
    while let Some((next, rest)) = modifier_at(pieces) {
        mods.push(next)?;
        pieces = onward(rest);
    }
    Ok((mods, pieces))
}
