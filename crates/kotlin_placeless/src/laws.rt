//! What tokens at other places spell.

ghost use Rattle.std.specs.Prelude.{◌≡◌};
ghost use Rattle.kotlin_grammar.specs.Files.{Tokens, Content, SpellsFile};
ghost use Rattle.kotlin_placeless.specs.Placeless.{placeless_tokens, placeless_content};

/// Where tokens at the place of what was made spell a file, the tokens at their own places spell one that differs from it in its places alone.
pub fn spelled_at_any_places()
    ensures { (x : Content) (ts : Tokens) → SpellsFile x (placeless_tokens ts) → (z : Content) × SpellsFile z ts × (placeless_content z ≡ x) }
{}
