//! What the canonical text of a file spells.

ghost use Rattle.std.specs.Prelude.{◌≡◌, true};
ghost use Rattle.kotlin_tree.specs.declared.tokens.Gap.TheVariants as gap;
ghost use Rattle.kotlin_tree.specs.declared.files.KFile.{KFile};
ghost use Rattle.kotlin_layout.specs.Shown.{file_roles};
ghost use Rattle.kotlin_grammar.specs.Files.{SpellsFile};
ghost use Rattle.kotlin_canonical_text.specs.Tokens.{tokens};
ghost use Rattle.kotlin_printed_text.specs.Printed.{content_tree, file_readable};

/// The tokens of the canonical text of a file spell its canonical tree.
pub fn file_is_spelled()
    ensures { (x : KFile) → file_readable x ≡ true → SpellsFile (content_tree x) (tokens gap.Plain (file_roles x)) }
{}
