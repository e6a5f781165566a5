//! What the grammar promises.

ghost use Rattle.std.specs.Prelude.{◌≡◌, [], Some};
ghost use Rattle.kotlin_grammar.specs.Files.{Tokens, Content, SpellsFile, pieces, content_of};

/// Tokens spell at most one file.
pub fn one_file()
    ensures { (x y : Content) (text : Tokens) → SpellsFile x text → SpellsFile y text → x ≡ y }
{}

/// What tokens spell is read.
pub fn spelled_is_read()
    ensures { (x : Content) (text : Tokens) → SpellsFile x text → content_of (pieces 0 [] text) ≡ Some x }
{}

/// What is read is spelled.
pub fn read_is_spelled()
    ensures { (x : Content) (text : Tokens) → content_of (pieces 0 [] text) ≡ Some x → SpellsFile x text }
{}
