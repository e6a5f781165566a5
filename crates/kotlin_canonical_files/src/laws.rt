//! What the pieces of a file are.

ghost use Rattle.std.specs.Prelude.{◌≡◌, [], ◌∷◌, ◌++◌};
ghost use Rattle.kotlin_tree.specs.declared.files.KClass.{KClass};
ghost use Rattle.kotlin_grammar.specs.Reading.{SpellsClass};
ghost use Rattle.kotlin_grammar.specs.Files.{Tokens, pieces};

/// Behind the tokens that spell a class a piece ends, and nowhere before.
pub fn class_is_a_piece()
    ensures { (c : KClass) (piece text rest : Tokens) → SpellsClass c text → pieces 0 piece (text ++ rest) ≡ (piece ++ text) ∷ pieces 0 [] rest }
{}
