//! Laws of the table of words.

ghost use Rattle.std.specs.Prelude.{◌≡◌, ℕ, List, Some};
ghost use Rattle.java_tree.specs.declared.tokens.Keyword.{Keyword};
ghost use Rattle.java_tree.specs.Spellings.{keyword_text};
ghost use Rattle.java_keywords.specs.declared.words.WordKind.TheVariants as kinds;
ghost use Rattle.java_keywords.specs.Words.{word_kind};

/// A word is a keyword exactly where it has the keyword's spelling.
pub fn keywords()
    ensures found { (k : Keyword) → word_kind (keyword_text k) ≡ Some (kinds.Keyword k) }
    ensures only { (word : List ℕ) (k : Keyword) → word_kind word ≡ Some (kinds.Keyword k) → word ≡ keyword_text k }
{}
