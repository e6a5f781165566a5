//! What the bytes of the canonical text of a file spell.

ghost use Rattle.std.specs.Prelude.{◌≡◌};
ghost use Rattle.kotlin_tree.specs.declared.files.KFile.{KFile};
ghost use Rattle.kotlin_layout.specs.Text.{KText};
ghost use Rattle.kotlin_placeless.specs.Placeless.{placeless_file};
ghost use Rattle.kotlin_spelling.specs.Spelling.{Spells};
ghost use Rattle.kotlin_tree.specs.UpToPlaces.{SameUpToPlaces};
ghost use Rattle.kotlin_reads_back.specs.ReadsBack.{IsReadable, IsSettled, file_tree};

use kotlin_lexed_text::laws::text_is_lexed;
use kotlin_spelling::laws::one_file;

/// The bytes of the canonical text of a file spell its canonical tree, with the places of its tokens.
pub fn printed_is_spelled()
    ensures { (x : KFile) → IsReadable x → (z : KFile) × Spells x.path z (KText x) × (placeless_file z ≡ file_tree x) }
{
    text_is_lexed();
}

/// A file to whose text nothing is added reads back as the same file up to places and comments, and as no other.
pub fn settled_reads_back()
    ensures spelled { (x : KFile) → IsReadable x → IsSettled x → (z : KFile) × Spells x.path z (KText x) × SameUpToPlaces z x }
    ensures alone { (x z : KFile) → IsReadable x → IsSettled x → Spells x.path z (KText x) → SameUpToPlaces z x }
{
    text_is_lexed();
    one_file();
}
