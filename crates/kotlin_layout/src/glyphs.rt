// What a text consists of besides names, literals and comments.

use kotlin_tree::{Keyword, Mark, Word};

/// A token that is always spelled in the same way, or what stands between tokens.
#[derive(Clone, Copy)]
pub enum Glyph {
    Mark(Mark),
    Keyword(Keyword),
    Word(Word),
    /// `;`
    Semicolon,
    /// A blank.
    Blank,
    /// The end of a line, and the indentation of the next.
    Line,
    /// The lines that follow are indented by four blanks more.
    Deeper,
    /// The lines that follow are indented by four blanks less.
    Shallower,
}
