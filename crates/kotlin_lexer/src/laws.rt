//! Laws of the definitions: each holds of all bytes and texts.

ghost use Rattle.std.specs.Prelude.{◌≡◌, ℕ, ◌^◌, min, Bool, List};
ghost use Rattle.kotlin_tree.specs.declared.tokens.Mark.{Mark};
ghost use Rattle.kotlin_tree.specs.declared.tokens.KToken.{KToken};
ghost use Rattle.kotlin_characters.specs.Letters.{Letters};
ghost use Rattle.kotlin_characters.specs.Scans.{drop_while};
ghost use Rattle.kotlin_lexer.specs.declared.found.LexFault.{LexFault};
ghost use Rattle.kotlin_lexer.specs.declared.marks.MarkKind.TheVariants as kinds;
ghost use Rattle.kotlin_lexer.specs.Marks.{mark_of};
ghost use Rattle.kotlin_lexer.specs.Numbers.{number_value};
ghost use Rattle.kotlin_lexer.specs.Cutting.{Lexes, Faults};
ghost use Rattle.kotlin_lexer.specs.Laws.{IsLongest, exact_value, IsLongestMark};

/// Bytes are read as one list of tokens at most.
pub fn one_reading()
    ensures { (bytes : List ℕ) (ts us : List KToken) → Lexes bytes ts → Lexes bytes us → ts ≡ us }
{}

/// A file has at most one first fault, and none where it has tokens.
pub fn one_fault()
    ensures once { (bytes : List ℕ) (f g : LexFault) → Faults bytes f → Faults bytes g → f ≡ g }
    ensures apart { (bytes : List ℕ) (ts : List KToken) (f : LexFault) → Lexes bytes ts → Faults bytes f → ⊥ }
{}

/// White space, words, digits and line comments go as far as they can.
pub fn longest_runs()
    ensures { (p : ℕ → Bool) (t : Letters) → IsLongest p t (drop_while p t) }
{}

/// A mark is the longest one that its text begins with.
pub fn longest_mark()
    ensures { (c d e n : ℕ) (m : Mark) → mark_of c d e ≡ kinds.Mark m n → IsLongestMark c d e m n }
{}

/// The value of digits is exact below 2 ^ 64.
pub fn exact_values()
    ensures { (v : ℕ) (t : Letters) → number_value (min v (2 ^ 64)) t ≡ min (exact_value v t) (2 ^ 64) }
{}
