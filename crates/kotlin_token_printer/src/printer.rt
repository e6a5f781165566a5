// The text so far, and what is appended to it.

ghost use Rattle.std.specs.Prelude.{◌≡◌, [], ◌∷◌, ◌++◌, OnOk, IfOk, length};
ghost use Rattle.kotlin_layout.specs.Names.{name_text, literal_text};
ghost use Rattle.kotlin_layout.specs.Layout.{Printed, with_more, indentation, laid_glyph, laid, nothing_printed};
ghost use Rattle.kotlin_layout.specs.Roles.{Role, fixed, name as name_role};
ghost use Rattle.kotlin_layout.specs.Shown.{comment_line, comment_roles};
ghost use Rattle.kotlin_layout.specs.declared.glyphs.Glyph.TheVariants as g;

use crate::spelling::{keyword_text, mark_text, put_literal, put_name, word_text};
use j2k_base::{Name, NoMemory, Text};
use kotlin_layout::Glyph;
use kotlin_tree::{Comments, KLiteral};
use std::alloc::Global;
use std::marker::Model;

/// The text so far, and one item for each level by which the next line is indented.
#[derive(Drop)]
pub struct Printer {
    alloc: Global,
    out: Text,
    opened: Vec<u8>,
}

impl Model for Printer {
    ghost use Rattle.std.specs.Prelude.{length};
    ghost use Rattle.kotlin_layout.specs.Layout.{Printed};

    ghost Value = { Printed };

    ghost view = { λ a. record { text = a.out; levels = length a.opened.items } };
}

// Four blanks for each item.
#[tactic(auto, using(crate::proofs::Texts::texts))]
fn put_levels(out: &mut Text, levels: &[u8]) -> Result<(), NoMemory>
    ensures { OnOk result (out.new ≡ out.old ++ indentation (length levels.now)) }
{
    for _level in levels {
        out.push_str("    ")?;
    }
    Ok(())
}

impl Printer {
    /// Nothing, which takes no memory.
    pub fn new(alloc: Global) -> Printer
        ensures { result ≡ nothing_printed }
    {
        Printer {
            alloc,
            out: Text::new(alloc),
            opened: Vec::new(alloc),
        }
    }

    /// The whole text.
    pub fn into_text(self) -> Text
        ensures { result ≡ self.text }
    {
        self.out
    }

    fn put(&mut self, text: &str) -> Result<(), NoMemory>
        ensures { OnOk result (self.new ≡ with_more text.now self.old) }
    {
        self.out.push_str(text)
    }

    fn put_indentation(&mut self) -> Result<(), NoMemory>
        ensures { OnOk result (self.new ≡ with_more (indentation self.old.levels) self.old) }
    {
        put_levels(&mut self.out, self.opened.as_slice())
    }

    // The end of a line, and the indentation of the next.
    #[tactic(auto, using(kotlin_layout::proofs::LawsToCite::twice))]
    fn put_line(&mut self) -> Result<(), NoMemory>
        ensures { OnOk result (self.new ≡ with_more (10 ∷ indentation self.old.levels) self.old) }
    {
        self.put("\n")?;
        self.put_indentation()
    }

    // The lines that follow are indented by a level more.
    #[tactic(auto, unfolding(kotlin_layout::specs::Layout::laid_glyph))]
    fn deepen(&mut self) -> Result<(), NoMemory>
        ensures { OnOk result (self.new ≡ laid_glyph g.Deeper self.old) }
    {
        self.opened.push(0)?;
        Ok(())
    }

    #[tactic(auto, unfolding(kotlin_layout::specs::Layout::laid_glyph))]
    fn put_glyph(&mut self, glyph: &Glyph) -> Result<(), NoMemory>
        ensures { OnOk result (self.new ≡ laid_glyph glyph.now self.old) }
    {
        match glyph {
            Glyph::Mark(mark) => self.put(mark_text(*mark)),
            Glyph::Keyword(word) => self.put(keyword_text(*word)),
            Glyph::Word(word) => self.put(word_text(*word)),
            Glyph::Semicolon => self.put(";"),
            Glyph::Blank => self.put(" "),
            Glyph::Line => self.put_line(),
            Glyph::Deeper => self.deepen(),
            Glyph::Shallower => {
                self.opened.pop();
                Ok(())
            }
        }
    }

    /// Glyphs.
    #[tactic(auto, using(kotlin_layout::proofs::LawsToCite::walks))]
    pub fn fixed(&mut self, glyphs: &[Glyph]) -> Result<(), NoMemory>
        ensures { OnOk result (self.new ≡ laid (fixed glyphs.now) self.old) }
    {
        for x in glyphs {
            self.put_glyph(x)?;
        }
        Ok(())
    }

    /// A name, in backticks where it needs them.
    #[tactic(auto, using(kotlin_layout::proofs::LawsToCite::walks))]
    pub fn name(&mut self, name: &Name) -> Result<(), NoMemory>
        ensures { OnOk result (self.new ≡ laid (name_role name.now) self.old) }
    {
        put_name(&mut self.out, name)
    }

    /// A literal.
    #[tactic(auto, using(kotlin_layout::proofs::LawsToCite::walks))]
    pub fn literal(&mut self, literal: &KLiteral) -> Result<(), NoMemory>
        ensures { OnOk result (self.new ≡ laid (Role.Literal literal.now ∷ []) self.old) }
    {
        put_literal(self.alloc, &mut self.out, literal)
    }

    // A comment on lines of its own.
    #[tactic(auto, using(kotlin_layout::proofs::LawsToCite::walks), unfolding(kotlin_layout::specs::Layout::laid_glyph))]
    fn comment(&mut self, comment: &Text) -> Result<(), NoMemory>
        ensures { OnOk result (self.new ≡ laid (comment_line comment.now) self.old) }
    {
        self.put(comment.as_str())?;
        self.put_line()
    }

    #[tactic(auto, using(kotlin_layout::proofs::LawsToCite::walks))]
    fn comment_list(&mut self, list: &[Text]) -> Result<(), NoMemory>
        ensures { OnOk result (self.new ≡ laid (comment_roles list.now) self.old) }
    {
        for x in list {
            self.comment(x)?;
        }
        Ok(())
    }

    /// Comments, each on lines of its own.
    pub fn comments(&mut self, comments: &Comments) -> Result<(), NoMemory>
        ensures { OnOk result (self.new ≡ laid (comment_roles comments.now) self.old) }
    {
        self.comment_list(comments.as_slice())
    }
}
