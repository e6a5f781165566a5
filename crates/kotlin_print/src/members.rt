// Members of classes.

ghost use Rattle.std.specs.Prelude.{◌≡◌, ◌∷◌, [], ◌++◌, ◌≤◌, OnOk, map};
ghost use Rattle.kotlin_layout.specs.Layout.{laid};
ghost use Rattle.kotlin_layout.specs.Roles.{listed, joined, lines as lines_of, block as block_of, comma as comma_glyphs, fixed};
ghost use Rattle.kotlin_layout.specs.Shown as s;

use j2k_base::NoMemory;
use kotlin_code_printer::{
    FREE, arguments, assigns, block, close_block, comma, declared, expression, has_type, kind,
    line, mark, open_block, word,
};
use kotlin_layout::Glyph;
use kotlin_token_printer::Printer;
use kotlin_tree::{
    KBlock, KCalled, KDelegation, KMember, KModifier, KModifierKind, KParam, KParams, KPrivateSet,
    KTyped, KValue, Keyword, Mark, Word,
};

fn rank(kind: KModifierKind) -> u8
    ensures { result ≡ s.rank kind }
{
    match kind {
        KModifierKind::JvmStatic(_) => 0,
        KModifierKind::JvmField(_) => 1,
        KModifierKind::Synchronized(_) => 2,
        KModifierKind::Volatile(_) => 3,
        KModifierKind::Private => 4,
        KModifierKind::Abstract => 5,
        KModifierKind::Open => 6,
        KModifierKind::Override => 7,
        KModifierKind::Const => 8,
    }
}

fn modifier(p: &mut Printer, kind: KModifierKind) -> Result<(), NoMemory>
    ensures { OnOk result (p.new ≡ laid (fixed (s.modifier_glyphs kind)) p.old) }
{
    match kind {
        KModifierKind::JvmStatic(_) => annotation(p, Word::JvmStatic),
        KModifierKind::JvmField(_) => annotation(p, Word::JvmField),
        KModifierKind::Synchronized(_) => annotation(p, Word::SynchronizedMethod),
        KModifierKind::Volatile(_) => annotation(p, Word::Volatile),
        KModifierKind::Private => soft_word(p, Word::Private),
        KModifierKind::Abstract => soft_word(p, Word::Abstract),
        KModifierKind::Open => soft_word(p, Word::Open),
        KModifierKind::Override => soft_word(p, Word::Override),
        KModifierKind::Const => soft_word(p, Word::Const),
    }
}

// `@`, a word, a blank.
fn annotation(p: &mut Printer, word: Word) -> Result<(), NoMemory>
    ensures { OnOk result (p.new ≡ laid (fixed (s.annotation_glyphs word)) p.old) }
{
    p.fixed(&[Glyph::Mark(Mark::At), Glyph::Word(word), Glyph::Blank])
}

// A word and a blank.
fn soft_word(p: &mut Printer, word: Word) -> Result<(), NoMemory>
    ensures { OnOk result (p.new ≡ laid (fixed (s.word_glyphs word)) p.old) }
{
    p.fixed(&[Glyph::Word(word), Glyph::Blank])
}

// A modifier, if it has the rank.
#[tactic(auto, using(kotlin_layout::proofs::LawsToCite::walks))]
fn if_ranked(p: &mut Printer, x: &KModifier, wanted: u8) -> Result<(), NoMemory>
    ensures { OnOk result (p.new ≡ laid (s.if_ranked wanted x.now) p.old) }
{
    if rank(x.kind) == wanted {
        modifier(p, x.kind)
    } else {
        Ok(())
    }
}

// The modifiers of a rank.
#[tactic(auto, using(kotlin_layout::proofs::LawsToCite::walks))]
fn ranked(p: &mut Printer, list: &[KModifier], wanted: u8) -> Result<(), NoMemory>
    ensures { OnOk result (p.new ≡ laid (s.ranked list.now wanted) p.old) }
{
    for x in list {
        if_ranked(p, x, wanted)?;
    }
    Ok(())
}

/// Modifiers in their order, each with a blank behind it.
#[tactic(auto, using(kotlin_layout::proofs::LawsToCite::walks))]
pub fn modifiers(p: &mut Printer, list: &[KModifier]) -> Result<(), NoMemory>
    ensures { OnOk result (p.new ≡ laid (s.modifiers_roles list.now) p.old) }
{
    ranked(p, list, 0)?;
    ranked(p, list, 1)?;
    ranked(p, list, 2)?;
    ranked(p, list, 3)?;
    ranked(p, list, 4)?;
    ranked(p, list, 5)?;
    ranked(p, list, 6)?;
    ranked(p, list, 7)?;
    ranked(p, list, 8)
}

#[tactic(auto, using(kotlin_layout::proofs::LawsToCite::walks))]
fn param(p: &mut Printer, x: &KParam) -> Result<(), NoMemory>
    ensures { OnOk result (p.new ≡ laid (s.param_roles x.now) p.old) }
{
    p.name(&x.name.name)?;
    has_type(p)?;
    kind(p, &x.kind)
}

#[tactic(auto, using(kotlin_layout::proofs::LawsToCite::walks))]
fn param_list(p: &mut Printer, list: &[KParam]) -> Result<(), NoMemory>
    ensures { OnOk result (p.new ≡ laid (listed comma_glyphs (map s.param_roles list.now)) p.old) }
{
    let mut is_first = true;
    for x in list {
        comma(p, is_first)?;
        param(p, x)?;
        is_first = false;
    }
    Ok(())
}

#[tactic(auto, using(kotlin_layout::proofs::LawsToCite::walks))]
fn params(p: &mut Printer, x: &KParams) -> Result<(), NoMemory>
    ensures { OnOk result (p.new ≡ laid (s.params_roles x.now) p.old) }
{
    mark(p, Mark::OpenRound)?;
    param_list(p, x.items.as_slice())?;
    mark(p, Mark::CloseRound)
}

#[tactic(auto, using(kotlin_layout::proofs::LawsToCite::walks))]
fn result_type(p: &mut Printer, x: &Option<KTyped>) -> Result<(), NoMemory>
    ensures { OnOk result (p.new ≡ laid (s.result_roles x.now) p.old) }
{
    match x {
        None => Ok(()),
        Some(x) => {
            has_type(p)?;
            kind(p, &x.kind)
        }
    }
}

#[tactic(auto, using(kotlin_layout::proofs::LawsToCite::walks))]
fn value(p: &mut Printer, x: &Option<KValue>) -> Result<(), NoMemory>
    ensures { OnOk result (p.new ≡ laid (s.value_roles x.now) p.old) }
{
    match x {
        None => Ok(()),
        Some(x) => {
            assigns(p)?;
            expression(p, FREE, &x.tree)
        }
    }
}

#[tactic(auto, using(kotlin_layout::proofs::LawsToCite::walks))]
fn setter(p: &mut Printer, x: Option<KPrivateSet>) -> Result<(), NoMemory>
    ensures { OnOk result (p.new ≡ laid (s.setter_roles x) p.old) }
{
    match x {
        None => Ok(()),
        Some(_) => p.fixed(&[
            Glyph::Deeper,
            Glyph::Line,
            Glyph::Word(Word::Private),
            Glyph::Blank,
            Glyph::Word(Word::Set),
            Glyph::Shallower,
        ]),
    }
}

fn body(p: &mut Printer, x: &KBlock) -> Result<(), NoMemory>
    ensures { OnOk result (p.new ≡ laid (s.block_roles x.now) p.old) }
{
    block(p, x.statements.as_slice())
}

#[tactic(auto, using(kotlin_layout::proofs::LawsToCite::walks))]
fn optional_body(p: &mut Printer, x: &Option<KBlock>) -> Result<(), NoMemory>
    ensures { OnOk result (p.new ≡ laid (s.body_roles x.now) p.old) }
{
    match x {
        None => Ok(()),
        Some(x) => body(p, x),
    }
}

fn called_word(called: KCalled) -> Glyph
    ensures { result ≡ s.called_word called }
{
    match called {
        KCalled::This => Glyph::Keyword(Keyword::This),
        KCalled::Super => Glyph::Keyword(Keyword::Super),
    }
}

#[tactic(auto, using(kotlin_layout::proofs::LawsToCite::walks))]
fn delegation(p: &mut Printer, x: &Option<KDelegation>) -> Result<(), NoMemory>
    ensures { OnOk result (p.new ≡ laid (s.delegation_roles x.now) p.old) }
{
    match x {
        None => Ok(()),
        Some(x) => {
            p.fixed(&[
                Glyph::Blank,
                Glyph::Mark(Mark::Colon),
                Glyph::Blank,
                called_word(x.called),
            ])?;
            arguments(p, x.arguments.as_slice())
        }
    }
}

/// A member.
#[cycle(members)]
#[tactic(auto, using(kotlin_layout::proofs::LawsToCite::walks, kotlin_layout::proofs::LawsToCite::members))]
pub fn member(p: &mut Printer, x: &KMember) -> Result<(), NoMemory>
    ensures { OnOk result (p.new ≡ laid (s.member_roles x.now) p.old) }
{
    match x {
        KMember::Commented(comments, inner) => {
            p.comments(comments)?;
            member(p, inner.get())
        }
        KMember::Property {
            modifiers: words,
            declared: what,
            value: given,
            setter: set,
        } => {
            modifiers(p, words.as_slice())?;
            declared(p, what)?;
            value(p, given)?;
            setter(p, *set)
        }
        KMember::Init(_, statements) => {
            word(p, Word::Init)?;
            body(p, statements)
        }
        KMember::Function {
            modifiers: words,
            name,
            params: list,
            result,
            body: statements,
            ..
        } => {
            modifiers(p, words.as_slice())?;
            p.fixed(&[Glyph::Keyword(Keyword::Fun), Glyph::Blank])?;
            p.name(&name.name)?;
            params(p, list)?;
            result_type(p, result)?;
            optional_body(p, statements)
        }
        KMember::Constructor {
            modifiers: words,
            params: list,
            first,
            body: statements,
            ..
        } => {
            modifiers(p, words.as_slice())?;
            word(p, Word::Constructor)?;
            params(p, list)?;
            delegation(p, first)?;
            body(p, statements)
        }
        KMember::Companion(_, list) => {
            p.fixed(&[
                Glyph::Word(Word::Companion),
                Glyph::Blank,
                Glyph::Keyword(Keyword::Object),
            ])?;
            members(p, list.as_slice())
        }
    }
}

/// The body of a class.
#[cycle(members)]
#[tactic(auto, using(kotlin_layout::proofs::LawsToCite::walks))]
pub fn members(p: &mut Printer, list: &[KMember]) -> Result<(), NoMemory>
    ensures { OnOk result (p.new ≡ laid (block_of (map s.member_roles list.now)) p.old) }
{
    open_block(p)?;
    member_lines(p, list)?;
    close_block(p)
}

#[cycle(members)]
#[tactic(auto, using(kotlin_layout::proofs::LawsToCite::walks))]
fn member_lines(p: &mut Printer, list: &[KMember]) -> Result<(), NoMemory>
    ensures { OnOk result (p.new ≡ laid (lines_of (map s.member_roles list.now)) p.old) }
{
    for x in list {
        line(p)?;
        member(p, x)?;
    }
    Ok(())
}
