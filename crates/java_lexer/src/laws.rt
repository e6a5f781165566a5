//! Laws of the definitions: each holds of all bytes and texts.

ghost use Rattle.std.specs.Prelude.{◌≡◌, ℕ, ◌+◌, ◌^◌, ◌≤◌, min, Bool, false, List};
ghost use Rattle.java_tree.specs.declared.tokens.Position.{Position};
ghost use Rattle.java_tree.specs.declared.tokens.Mark.{Mark};
ghost use Rattle.java_tree.specs.declared.tokens.JToken.{JToken};
ghost use Rattle.java_tree.specs.declared.tokens.Comment.{Comment};
ghost use Rattle.java_lexer.specs.declared.found.Code.TheVariants.{Form};
ghost use Rattle.java_lexer.specs.declared.found.LexFault.{LexFault};
ghost use Rattle.java_lexer.specs.declared.marks.MarkKind.TheVariants as kinds;
ghost use Rattle.java_characters.specs.Letters.{Letters};
ghost use Rattle.java_characters.specs.Scans.{drop_while, drop_letters};
ghost use Rattle.java_lexer.specs.Found.{fault, comment};
ghost use Rattle.java_lexer.specs.Marks.{mark_of};
ghost use Rattle.java_lexer.specs.Numbers.{run_value};
ghost use Rattle.java_lexer.specs.Pieces.{block_piece};
ghost use Rattle.java_lexer.specs.Cutting.{Lexes, Faults};
ghost use Rattle.java_lexer.specs.Laws.{IsLongest, exact_value, closes, IsFirstClose, end_of, IsLongestMark};

/// Bytes have at most one cutting.
pub fn one_cutting()
    ensures { (bytes : List ℕ) (ts us : List JToken) (cs ds : List Comment) → Lexes bytes ts cs → Lexes bytes us ds → (ts ≡ us) × (cs ≡ ds) }
{}

/// A file has at most one first fault, and none where it has tokens.
pub fn one_fault()
    ensures once { (bytes : List ℕ) (f g : LexFault) → Faults bytes f → Faults bytes g → f ≡ g }
    ensures apart { (bytes : List ℕ) (ts : List JToken) (cs : List Comment) (f : LexFault) → Lexes bytes ts cs → Faults bytes f → ⊥ }
{}

/// White space, words, digits and line comments go as far as they can.
pub fn longest_runs()
    ensures { (p : ℕ → Bool) (t : Letters) → IsLongest p t (drop_while p t) }
{}

/// A mark is the longest one that its text begins with.
pub fn longest_mark()
    ensures { (c d e n : ℕ) (m : Mark) → mark_of c d e ≡ kinds.Mark m n → IsLongestMark c d e m n }
{}

/// A block comment ends with the first `*/`, and is a fault where there is none.
pub fn first_close()
    ensures closed { (p : Position) (n : ℕ) (t : Letters) → IsFirstClose t n → block_piece p t ≡ comment p (drop_letters (n + 2) t) }
    ensures unclosed { (p : Position) (t : Letters) → ((n : ℕ) → closes (drop_letters n t) ≡ false) → block_piece p t ≡ fault Form p (end_of t) }
{}

/// The value of digits is exact below 2 ^ 64.
pub fn exact_values()
    ensures { (radix v : ℕ) (t : Letters) → 1 ≤ radix → run_value radix (min v (2 ^ 64)) t ≡ min (exact_value radix v t) (2 ^ 64) }
{}
