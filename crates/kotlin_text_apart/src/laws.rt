//! What stands behind each token of a canonical text.

ghost use Rattle.std.specs.Prelude.{◌≡◌, true, []};
ghost use Rattle.kotlin_tree.specs.declared.files.KFile.{KFile};
ghost use Rattle.kotlin_layout.specs.Shown.{file_roles};
ghost use Rattle.kotlin_lexed_text.specs.Lexable.{is_lexable};

/// In the canonical text of a file each token ends where the next part begins, no line ends directly within parentheses or square brackets, and
/// brackets pair.
pub fn tokens_stand_apart()
    ensures { (x : KFile) → is_lexable [] (file_roles x) ≡ true }
{}
