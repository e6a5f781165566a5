// Tokens that are always spelled in the same way, and what stands between them.

ghost use Rattle.std.specs.Prelude.{◌≡◌, ◌∷◌, [], ◌++◌, OnOk};
ghost use Rattle.kotlin_tree.specs.declared.tokens.Mark.TheVariants as m;
ghost use Rattle.kotlin_layout.specs.declared.glyphs.Glyph.TheVariants as g;
ghost use Rattle.kotlin_layout.specs.Layout.{laid};
ghost use Rattle.kotlin_layout.specs.Roles.{between, comma as comma_glyphs, next as next_glyphs, fixed, name as name_role, opened, closed};
ghost use Rattle.kotlin_layout.specs.Shown as s;

use j2k_base::{Name, NoMemory};
use kotlin_layout::Glyph;
use kotlin_token_printer::Printer;
use kotlin_tree::{KBinary, KName, KPostfix, KPrefix, Keyword, Mark, Word};

/// A mark.
pub fn mark(p: &mut Printer, mark: Mark) -> Result<(), NoMemory>
    ensures { OnOk result (p.new ≡ laid (fixed (g.Mark mark ∷ [])) p.old) }
{
    p.fixed(&[Glyph::Mark(mark)])
}

/// A comma and a blank, unless it is the first time.
pub fn comma(p: &mut Printer, is_first: bool) -> Result<(), NoMemory>
    ensures { OnOk result (p.new ≡ laid (between is_first comma_glyphs) p.old) }
{
    if is_first {
        p.fixed(&[])
    } else {
        p.fixed(&[Glyph::Mark(Mark::Comma), Glyph::Blank])
    }
}

/// `;` and a blank, unless it is the first time.
pub fn next(p: &mut Printer, is_first: bool) -> Result<(), NoMemory>
    ensures { OnOk result (p.new ≡ laid (between is_first next_glyphs) p.old) }
{
    if is_first {
        p.fixed(&[])
    } else {
        p.fixed(&[Glyph::Semicolon, Glyph::Blank])
    }
}

pub fn prefix_mark(operator: KPrefix) -> Mark
    ensures { result ≡ s.prefix_mark operator }
{
    match operator {
        KPrefix::Plus => Mark::Plus,
        KPrefix::Minus => Mark::Minus,
        KPrefix::Not => Mark::Not,
        KPrefix::Increment => Mark::PlusPlus,
        KPrefix::Decrement => Mark::MinusMinus,
    }
}

pub fn postfix_mark(operator: KPostfix) -> Mark
    ensures { result ≡ s.postfix_mark operator }
{
    match operator {
        KPostfix::NotNull => Mark::NotNull,
        KPostfix::Increment => Mark::PlusPlus,
        KPostfix::Decrement => Mark::MinusMinus,
    }
}

pub fn operator_glyph(operator: KBinary) -> Glyph
    ensures { result ≡ s.operator_glyph operator }
{
    match operator {
        KBinary::OrElse => Glyph::Mark(Mark::OrOr),
        KBinary::AndAlso => Glyph::Mark(Mark::AndAnd),
        KBinary::Equal => Glyph::Mark(Mark::Equal),
        KBinary::NotEqual => Glyph::Mark(Mark::NotEqual),
        KBinary::Same => Glyph::Mark(Mark::Identical),
        KBinary::NotSame => Glyph::Mark(Mark::NotIdentical),
        KBinary::Less => Glyph::Mark(Mark::Less),
        KBinary::Greater => Glyph::Mark(Mark::Greater),
        KBinary::LessEqual => Glyph::Mark(Mark::LessEqual),
        KBinary::GreaterEqual => Glyph::Mark(Mark::GreaterEqual),
        KBinary::ShiftLeft => Glyph::Word(Word::Shl),
        KBinary::ShiftRight => Glyph::Word(Word::Shr),
        KBinary::ShiftUnsigned => Glyph::Word(Word::Ushr),
        KBinary::BitAnd => Glyph::Word(Word::And),
        KBinary::BitOr => Glyph::Word(Word::Or),
        KBinary::BitXor => Glyph::Word(Word::Xor),
        KBinary::Add => Glyph::Mark(Mark::Plus),
        KBinary::Subtract => Glyph::Mark(Mark::Minus),
        KBinary::Multiply => Glyph::Mark(Mark::Star),
        KBinary::Divide => Glyph::Mark(Mark::Slash),
        KBinary::Remainder => Glyph::Mark(Mark::Percent),
    }
}

/// A keyword.
pub fn keyword(p: &mut Printer, word: Keyword) -> Result<(), NoMemory>
    ensures { OnOk result (p.new ≡ laid (fixed (g.Keyword word ∷ [])) p.old) }
{
    p.fixed(&[Glyph::Keyword(word)])
}

/// A blank.
pub fn blank(p: &mut Printer) -> Result<(), NoMemory>
    ensures { OnOk result (p.new ≡ laid (fixed (g.Blank ∷ [])) p.old) }
{
    p.fixed(&[Glyph::Blank])
}

/// A token between blanks.
pub fn spaced(p: &mut Printer, glyph: Glyph) -> Result<(), NoMemory>
    ensures { OnOk result (p.new ≡ laid (fixed (g.Blank ∷ glyph ∷ g.Blank ∷ [])) p.old) }
{
    p.fixed(&[Glyph::Blank, glyph, Glyph::Blank])
}

/// A word, a blank, `(`.
pub fn head(p: &mut Printer, word: Glyph) -> Result<(), NoMemory>
    ensures { OnOk result (p.new ≡ laid (fixed (word ∷ g.Blank ∷ g.Mark m.OpenRound ∷ [])) p.old) }
{
    p.fixed(&[word, Glyph::Blank, Glyph::Mark(Mark::OpenRound)])
}

/// `=` between blanks.
pub fn assigns(p: &mut Printer) -> Result<(), NoMemory>
    ensures { OnOk result (p.new ≡ laid (fixed s.assigns) p.old) }
{
    spaced(p, Glyph::Mark(Mark::Assign))
}

/// `:` and a blank.
pub fn has_type(p: &mut Printer) -> Result<(), NoMemory>
    ensures { OnOk result (p.new ≡ laid (fixed s.has_type) p.old) }
{
    p.fixed(&[Glyph::Mark(Mark::Colon), Glyph::Blank])
}

/// The beginning of a block.
pub fn open_block(p: &mut Printer) -> Result<(), NoMemory>
    ensures { OnOk result (p.new ≡ laid (fixed opened) p.old) }
{
    p.fixed(&[Glyph::Blank, Glyph::Mark(Mark::OpenCurly), Glyph::Deeper])
}

/// The end of a block.
pub fn close_block(p: &mut Printer) -> Result<(), NoMemory>
    ensures { OnOk result (p.new ≡ laid (fixed closed) p.old) }
{
    p.fixed(&[Glyph::Shallower, Glyph::Line, Glyph::Mark(Mark::CloseCurly)])
}

/// The end of a line.
pub fn line(p: &mut Printer) -> Result<(), NoMemory>
    ensures { OnOk result (p.new ≡ laid (fixed (g.Line ∷ [])) p.old) }
{
    p.fixed(&[Glyph::Line])
}

pub fn else_line(p: &mut Printer) -> Result<(), NoMemory>
    ensures { OnOk result (p.new ≡ laid (fixed s.else_line) p.old) }
{
    p.fixed(&[
        Glyph::Line,
        Glyph::Keyword(Keyword::Else),
        Glyph::Blank,
        Glyph::Mark(Mark::Arrow),
    ])
}

/// A dot and a name.
#[tactic(auto, using(kotlin_layout::proofs::LawsToCite::walks))]
pub fn dot_name(p: &mut Printer, name: &Name) -> Result<(), NoMemory>
    ensures { OnOk result (p.new ≡ laid (fixed (g.Mark m.Dot ∷ []) ++ name_role name.now) p.old) }
{
    mark(p, Mark::Dot)?;
    p.name(name)
}

/// A word that is also a name.
pub fn word(p: &mut Printer, word: Word) -> Result<(), NoMemory>
    ensures { OnOk result (p.new ≡ laid (fixed (g.Word word ∷ [])) p.old) }
{
    p.fixed(&[Glyph::Word(word)])
}

/// The `else` behind a block.
pub fn else_word(p: &mut Printer) -> Result<(), NoMemory>
    ensures { OnOk result (p.new ≡ laid (fixed s.else_word) p.old) }
{
    p.fixed(&[Glyph::Blank, Glyph::Keyword(Keyword::Else)])
}

/// The last alternative of a `when` that gives a value.
pub fn else_value(p: &mut Printer) -> Result<(), NoMemory>
    ensures { OnOk result (p.new ≡ laid (fixed s.else_value) p.old) }
{
    p.fixed(&[
        Glyph::Line,
        Glyph::Keyword(Keyword::Else),
        Glyph::Blank,
        Glyph::Mark(Mark::Arrow),
        Glyph::Blank,
    ])
}

/// `::class.java`
pub fn class_of(p: &mut Printer) -> Result<(), NoMemory>
    ensures { OnOk result (p.new ≡ laid (fixed s.class_of) p.old) }
{
    p.fixed(&[
        Glyph::Mark(Mark::DoubleColon),
        Glyph::Keyword(Keyword::Class),
        Glyph::Mark(Mark::Dot),
        Glyph::Word(Word::Java),
    ])
}

/// The head of a `for` as far as `in`.
#[tactic(auto, using(kotlin_layout::proofs::LawsToCite::walks))]
pub fn for_head(p: &mut Printer, name: &KName) -> Result<(), NoMemory>
    ensures { OnOk result (p.new ≡ laid (s.for_head name.now) p.old) }
{
    head(p, Glyph::Keyword(Keyword::For))?;
    p.name(&name.name)?;
    spaced(p, Glyph::Keyword(Keyword::In))
}
