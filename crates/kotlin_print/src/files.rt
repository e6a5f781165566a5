// Classes and files.

ghost use Rattle.std.specs.Prelude.{◌≡◌, ◌∷◌, [], ◌++◌, Bool, true, false, IfOk, OnOk, map};
ghost use Rattle.kotlin_layout.specs.Layout.{laid, text_of};
ghost use Rattle.kotlin_layout.specs.Roles.{listed, joined, comma as comma_glyphs, fixed};
ghost use Rattle.kotlin_layout.specs.Shown as s;
ghost use Rattle.kotlin_layout.specs.declared.glyphs.Glyph.TheVariants as g;
ghost use Rattle.kotlin_layout.specs.Text.{KText};

use crate::members::{members, modifiers};
use j2k_base::{NoMemory, Text};
use kotlin_code_printer::{comma, kind, line, mark, qualified};
use kotlin_layout::Glyph;
use kotlin_token_printer::Printer;
use kotlin_tree::{
    Brackets, KClass, KClassWord, KFile, KImport, KPackage, KSuper, KSupers, KTypeParam,
    KTypeParams, KTyped, Keyword, Mark, Word,
};
use std::alloc::Global;

// ` : `
fn above(p: &mut Printer) -> Result<(), NoMemory>
    ensures { OnOk result (p.new ≡ laid (fixed s.above) p.old) }
{
    p.fixed(&[Glyph::Blank, Glyph::Mark(Mark::Colon), Glyph::Blank])
}

#[tactic(auto, using(kotlin_layout::proofs::LawsToCite::walks))]
fn bound(p: &mut Printer, x: &Option<KTyped>) -> Result<(), NoMemory>
    ensures { OnOk result (p.new ≡ laid (s.bound_roles x.now) p.old) }
{
    match x {
        None => Ok(()),
        Some(x) => {
            above(p)?;
            kind(p, &x.kind)
        }
    }
}

#[tactic(auto, using(kotlin_layout::proofs::LawsToCite::walks))]
fn type_param(p: &mut Printer, x: &KTypeParam) -> Result<(), NoMemory>
    ensures { OnOk result (p.new ≡ laid (s.type_param_roles x.now) p.old) }
{
    p.name(&x.name.name)?;
    bound(p, &x.bound)
}

#[tactic(auto, using(kotlin_layout::proofs::LawsToCite::walks))]
fn type_param_list(p: &mut Printer, list: &[KTypeParam]) -> Result<(), NoMemory>
    ensures { OnOk result (p.new ≡ laid (listed comma_glyphs (map s.type_param_roles list.now)) p.old) }
{
    let mut is_first = true;
    for x in list {
        comma(p, is_first)?;
        type_param(p, x)?;
        is_first = false;
    }
    Ok(())
}

#[tactic(auto, using(kotlin_layout::proofs::LawsToCite::walks))]
fn type_params(p: &mut Printer, x: &Option<KTypeParams>) -> Result<(), NoMemory>
    ensures { OnOk result (p.new ≡ laid (s.type_params_roles x.now) p.old) }
{
    match x {
        None => Ok(()),
        Some(x) => {
            mark(p, Mark::Less)?;
            type_param_list(p, x.items.as_slice())?;
            mark(p, Mark::Greater)
        }
    }
}

#[tactic(auto, using(kotlin_layout::proofs::LawsToCite::walks))]
fn called(p: &mut Printer, x: Option<Brackets>) -> Result<(), NoMemory>
    ensures { OnOk result (p.new ≡ laid (s.super_call x) p.old) }
{
    match x {
        None => Ok(()),
        Some(_) => p.fixed(&[Glyph::Mark(Mark::OpenRound), Glyph::Mark(Mark::CloseRound)]),
    }
}

#[tactic(auto, using(kotlin_layout::proofs::LawsToCite::walks))]
fn supertype(p: &mut Printer, x: &KSuper) -> Result<(), NoMemory>
    ensures { OnOk result (p.new ≡ laid (s.super_roles x.now) p.old) }
{
    kind(p, &x.kind)?;
    called(p, x.round)
}

#[tactic(auto, using(kotlin_layout::proofs::LawsToCite::walks))]
fn super_list(p: &mut Printer, list: &[KSuper]) -> Result<(), NoMemory>
    ensures { OnOk result (p.new ≡ laid (listed comma_glyphs (map s.super_roles list.now)) p.old) }
{
    let mut is_first = true;
    for x in list {
        comma(p, is_first)?;
        supertype(p, x)?;
        is_first = false;
    }
    Ok(())
}

#[tactic(auto, using(kotlin_layout::proofs::LawsToCite::walks))]
fn supers(p: &mut Printer, x: &Option<KSupers>) -> Result<(), NoMemory>
    ensures { OnOk result (p.new ≡ laid (s.supers_roles x.now) p.old) }
{
    match x {
        None => Ok(()),
        Some(x) => {
            above(p)?;
            super_list(p, x.items.as_slice())
        }
    }
}

fn class_words(p: &mut Printer, word: KClassWord) -> Result<(), NoMemory>
    ensures { OnOk result (p.new ≡ laid (fixed (s.class_words word)) p.old) }
{
    match word {
        KClassWord::Class => p.fixed(&[Glyph::Keyword(Keyword::Class), Glyph::Blank]),
        KClassWord::Interface => p.fixed(&[Glyph::Keyword(Keyword::Interface), Glyph::Blank]),
        KClassWord::FunClass(_) => p.fixed(&[
            Glyph::Keyword(Keyword::Fun),
            Glyph::Blank,
            Glyph::Keyword(Keyword::Class),
            Glyph::Blank,
        ]),
        KClassWord::FunInterface(_) => p.fixed(&[
            Glyph::Keyword(Keyword::Fun),
            Glyph::Blank,
            Glyph::Keyword(Keyword::Interface),
            Glyph::Blank,
        ]),
    }
}

// A class.
#[tactic(auto, using(kotlin_layout::proofs::LawsToCite::walks), unfolding(kotlin_layout::specs::Shown::class_roles))]
fn class(p: &mut Printer, x: &KClass) -> Result<(), NoMemory>
    ensures { OnOk result (p.new ≡ laid (s.class_roles x.now) p.old) }
{
    p.comments(&x.comments)?;
    modifiers(p, x.modifiers.as_slice())?;
    class_words(p, x.word)?;
    p.name(&x.name.name)?;
    type_params(p, &x.params)?;
    supers(p, &x.supers)?;
    members(p, x.members.as_slice())
}

#[tactic(auto, using(kotlin_layout::proofs::LawsToCite::walks))]
fn package(p: &mut Printer, x: &KPackage) -> Result<(), NoMemory>
    ensures { OnOk result (p.new ≡ laid (s.package_line x.now) p.old) }
{
    p.fixed(&[Glyph::Keyword(Keyword::Package), Glyph::Blank])?;
    qualified(p, &x.name)
}

#[tactic(auto, using(kotlin_layout::proofs::LawsToCite::walks))]
fn import(p: &mut Printer, x: &KImport) -> Result<(), NoMemory>
    ensures { OnOk result (p.new ≡ laid (s.import_line x.now) p.old) }
{
    p.fixed(&[Glyph::Word(Word::Import), Glyph::Blank])?;
    qualified(p, &x.name)?;
    line(p)
}

// The empty line before a part, unless it is the first.
fn empty_line(p: &mut Printer, is_first: bool) -> Result<(), NoMemory>
    ensures { OnOk result (p.new ≡ laid (s.empty_line is_first) p.old) }
{
    if is_first { p.fixed(&[]) } else { line(p) }
}

#[tactic(auto, using(kotlin_layout::proofs::LawsToCite::walks))]
fn package_part(p: &mut Printer, x: &Option<KPackage>) -> Result<(), NoMemory>
    ensures { OnOk result (p.new ≡ laid (s.package_part x.now) p.old) }
{
    match x {
        None => Ok(()),
        Some(x) => {
            package(p, x)?;
            line(p)
        }
    }
}

#[tactic(auto, using(kotlin_layout::proofs::LawsToCite::walks))]
fn import_lines(p: &mut Printer, list: &[KImport]) -> Result<(), NoMemory>
    ensures { OnOk result (p.new ≡ laid (joined (map s.import_line list.now)) p.old) }
{
    for x in list {
        import(p, x)?;
    }
    Ok(())
}

#[tactic(auto, using(kotlin_layout::proofs::LawsToCite::walks))]
fn imports_part(p: &mut Printer, is_first: bool, list: &[KImport]) -> Result<(), NoMemory>
    ensures { OnOk result (p.new ≡ laid (s.imports_part is_first list.now) p.old) }
{
    if let [] = list {
        return Ok(());
    }
    empty_line(p, is_first)?;
    import_lines(p, list)
}

// A class on lines of its own.
#[tactic(auto, using(kotlin_layout::proofs::LawsToCite::walks))]
fn class_part(p: &mut Printer, is_first: bool, x: &KClass) -> Result<(), NoMemory>
    ensures { OnOk result (p.new ≡ laid (s.class_part is_first x.now) p.old) }
{
    empty_line(p, is_first)?;
    class(p, x)?;
    line(p)
}

// Classes with an empty line between them, and one before the first unless it is the first part.
#[tactic(auto, using(kotlin_layout::proofs::LawsToCite::walks))]
fn classes_part(p: &mut Printer, is_first: bool, list: &[KClass]) -> Result<(), NoMemory>
    ensures { OnOk result (p.new ≡ laid (s.classes_part is_first list.now) p.old) }
{
    let mut first = is_first;
    for x in list {
        class_part(p, first, x)?;
        first = false;
    }
    Ok(())
}

fn is_absent(x: &Option<KPackage>) -> bool
    ensures { result ≡ s.is_absent x.now }
{
    match x {
        None => true,
        Some(_) => false,
    }
}

// Whether a file has neither a package line nor an import.
fn is_headless(x: &Option<KPackage>, imports: &[KImport]) -> bool
    ensures { result ≡ s.is_headless x.now imports.now }
{
    match x {
        None => match imports {
            [] => true,
            _ => false,
        },
        Some(_) => false,
    }
}

// The roles of a file.
#[tactic(auto, using(kotlin_layout::proofs::LawsToCite::walks), unfolding(kotlin_layout::specs::Shown::file_roles))]
fn file_parts(p: &mut Printer, x: &KFile) -> Result<(), NoMemory>
    ensures { OnOk result (p.new ≡ laid (s.file_roles x.now) p.old) }
{
    package_part(p, &x.package)?;
    imports_part(p, is_absent(&x.package), x.imports.as_slice())?;
    let is_first = is_headless(&x.package, x.imports.as_slice());
    classes_part(p, is_first, x.classes.as_slice())
}

/// The canonical text of a file: four blanks a level, one statement or member a line, parentheses where they are missing,
/// comments on lines of their own before what they belong to.
#[tactic(auto, unfolding(kotlin_layout::specs::Text::KText))]
pub fn print(alloc: Global, file: &KFile) -> Result<Text, NoMemory>
    ensures { IfOk result (λ text. text ≡ KText file.now) }
{
    let mut p = Printer::new(alloc);
    file_parts(&mut p, file)?;
    Ok(p.into_text())
}
