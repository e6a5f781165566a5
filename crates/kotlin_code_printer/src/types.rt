// Names and types.

ghost use Rattle.std.specs.Prelude.{◌≡◌, ◌∷◌, [], OnOk, map};
ghost use Rattle.kotlin_tree.specs.declared.tokens.Mark.TheVariants as m;
ghost use Rattle.kotlin_layout.specs.declared.glyphs.Glyph.TheVariants as g;
ghost use Rattle.kotlin_layout.specs.Layout.{laid};
ghost use Rattle.kotlin_layout.specs.Roles.{listed, joined, comma as comma_glyphs};
ghost use Rattle.kotlin_layout.specs.Shown.{qualified_roles, if_there, in_angles, type_roles, type_arguments_roles, dotted_roles};

use crate::tokens::{comma, mark};
use j2k_base::NoMemory;
use kotlin_token_printer::Printer;
use kotlin_tree::{KDotted, KQualified, KType, KTypeArguments, Mark, Position};

#[tactic(auto, using(kotlin_layout::proofs::LawsToCite::walks))]
fn dotted(p: &mut Printer, x: &KDotted) -> Result<(), NoMemory>
    ensures { OnOk result (p.new ≡ laid (dotted_roles x.now) p.old) }
{
    mark(p, Mark::Dot)?;
    p.name(&x.name.name)
}

#[tactic(auto, using(kotlin_layout::proofs::LawsToCite::walks))]
fn all_dotted(p: &mut Printer, list: &[KDotted]) -> Result<(), NoMemory>
    ensures { OnOk result (p.new ≡ laid (joined (map dotted_roles list.now)) p.old) }
{
    for x in list {
        dotted(p, x)?;
    }
    Ok(())
}

/// A name with dots.
#[tactic(auto, using(kotlin_layout::proofs::LawsToCite::walks))]
pub fn qualified(p: &mut Printer, x: &KQualified) -> Result<(), NoMemory>
    ensures { OnOk result (p.new ≡ laid (qualified_roles x.now) p.old) }
{
    p.name(&x.first.name)?;
    all_dotted(p, x.rest.as_slice())
}

#[tactic(auto, using(kotlin_layout::proofs::LawsToCite::walks))]
fn question(p: &mut Printer, at: Option<Position>) -> Result<(), NoMemory>
    ensures { OnOk result (p.new ≡ laid (if_there at (g.Mark m.Question ∷ [])) p.old) }
{
    match at {
        None => Ok(()),
        Some(_) => mark(p, Mark::Question),
    }
}

/// A type.
#[cycle(types)]
#[tactic(auto, using(kotlin_layout::proofs::LawsToCite::walks, kotlin_layout::proofs::LawsToCite::types))]
pub fn kind(p: &mut Printer, x: &KType) -> Result<(), NoMemory>
    ensures { OnOk result (p.new ≡ laid (type_roles x.now) p.old) }
{
    match x {
        KType::Plain {
            name,
            question: at,
            ..
        } => {
            qualified(p, name)?;
            question(p, *at)
        }
        KType::Applied {
            name,
            arguments,
            question: at,
            ..
        } => {
            qualified(p, name)?;
            angles(p, arguments.as_slice())?;
            question(p, *at)
        }
    }
}

/// Types between `<` and `>`.
#[cycle(types)]
#[tactic(auto, using(kotlin_layout::proofs::LawsToCite::walks))]
fn angles(p: &mut Printer, list: &[KType]) -> Result<(), NoMemory>
    ensures { OnOk result (p.new ≡ laid (in_angles (map type_roles list.now)) p.old) }
{
    mark(p, Mark::Less)?;
    kinds(p, list)?;
    mark(p, Mark::Greater)
}

#[cycle(types)]
#[tactic(auto, using(kotlin_layout::proofs::LawsToCite::walks))]
fn kinds(p: &mut Printer, list: &[KType]) -> Result<(), NoMemory>
    ensures { OnOk result (p.new ≡ laid (listed comma_glyphs (map type_roles list.now)) p.old) }
{
    let mut is_first = true;
    for x in list {
        comma(p, is_first)?;
        kind(p, x)?;
        is_first = false;
    }
    Ok(())
}

/// Type arguments, where there are some.
#[tactic(auto, using(kotlin_layout::proofs::LawsToCite::walks))]
pub fn type_arguments(p: &mut Printer, x: &Option<KTypeArguments>) -> Result<(), NoMemory>
    ensures { OnOk result (p.new ≡ laid (type_arguments_roles x.now) p.old) }
{
    match x {
        None => Ok(()),
        Some(x) => angles(p, x.items.as_slice()),
    }
}
