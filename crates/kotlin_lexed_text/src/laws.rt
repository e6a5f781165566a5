//! What the lexer reads of a text that is laid out.

ghost use Rattle.std.specs.Prelude.{◌≡◌, ◌∷◌, ◌++◌, true, [], List};
ghost use Rattle.kotlin_tree.specs.declared.tokens.Gap.TheVariants as gap;
ghost use Rattle.kotlin_tree.specs.declared.tokens.TokenKind.TheVariants as kinds;
ghost use Rattle.kotlin_layout.specs.Roles.{Roles};
ghost use Rattle.kotlin_layout.specs.Layout.{text_of};
ghost use Rattle.kotlin_lexer.specs.Cutting.{Lexes};
ghost use Rattle.kotlin_canonical_text.specs.Tokens.{Tokens, token, tokens};
ghost use Rattle.kotlin_canonical_text.specs.Gaps.{gap_behind};
ghost use Rattle.kotlin_placeless.specs.Placeless.{placeless_tokens};
ghost use Rattle.kotlin_lexed_text.specs.Lexable.{AreParts, is_lexable};

use java_characters::laws::decodes;

/// A text that is laid out is cut into the tokens that stand in it, and the end of the file, at some places.
pub fn text_is_lexed()
    ensures { (xs : Roles) → AreParts xs → is_lexable [] xs ≡ true
        → (ts : Tokens) × Lexes (text_of xs) ts × (placeless_tokens ts ≡ tokens gap.Plain xs ++ token kinds.End (gap_behind gap.Plain xs) ∷ []) }
{
    decodes();
}
