//! Laws of the table of words.

ghost use Rattle.std.specs.Prelude.{◌≡◌, ℕ, List, Some};
ghost use Rattle.kotlin_tree.specs.declared.tokens.Keyword.{Keyword};
ghost use Rattle.kotlin_tree.specs.declared.tokens.Word.{Word};
ghost use Rattle.kotlin_tree.specs.Spellings.{keyword_text, word_text};
ghost use Rattle.kotlin_keywords.specs.declared.words.WordKind.TheVariants as kinds;
ghost use Rattle.kotlin_keywords.specs.Words.{word_kind};

/// A word is a keyword exactly where it has the keyword's spelling, and one that is also a name
/// exactly where it has that one's.
pub fn spelled_words()
    ensures keyword { (k : Keyword) → word_kind (keyword_text k) ≡ Some (kinds.Keyword k) }
    ensures keyword_only { (text : List ℕ) (k : Keyword) → word_kind text ≡ Some (kinds.Keyword k) → text ≡ keyword_text k }
    ensures word { (w : Word) → word_kind (word_text w) ≡ Some (kinds.Word w) }
    ensures word_only { (text : List ℕ) (w : Word) → word_kind text ≡ Some (kinds.Word w) → text ≡ word_text w }
{}
