//! Laws of the definitions: each holds of all bytes.

ghost use Rattle.std.specs.Prelude.{◌≡◌, ℕ, ◌∷◌, ◌++◌, List, length, take, encode_utf8};
ghost use Rattle.std.specs.Char.{IsScalar};
ghost use Rattle.java_characters.specs.declared.letters.RawFront.TheVariants.{Plain};
ghost use Rattle.java_characters.specs.Letters.{character_front};

/// A character's bytes are read as that character, whatever follows them.
pub fn decodes()
    ensures { (c : ℕ) (rest : List ℕ) → IsScalar c → character_front (encode_utf8 c ++ rest) ≡ Plain c (length (encode_utf8 c)) }
{}

/// What is read as a character is what that character is encoded as.
pub fn encoded()
    ensures { (a c n : ℕ) (bs : List ℕ) → character_front (a ∷ bs) ≡ Plain c n → IsScalar c × (take n (a ∷ bs) ≡ encode_utf8 c) }
{}
