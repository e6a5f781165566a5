//! What the spelling of Kotlin files promises.

ghost use Rattle.std.specs.Prelude.{◌≡◌, ℕ, List};
ghost use Rattle.j2k_base.specs.declared.places.Fault.{Fault};
ghost use Rattle.kotlin_tree.specs.declared.files.KFile.{KFile};
ghost use Rattle.kotlin_spelling.specs.Spelling.{Spells, FirstFault};

/// Bytes spell at most one file.
pub fn one_file()
    ensures { (path bytes : List ℕ) (x y : KFile) → Spells path x bytes → Spells path y bytes → x ≡ y }
{}

/// Bytes have at most one first fault, and none where they spell a file.
pub fn one_fault()
    ensures once { (path bytes : List ℕ) (f g : Fault) → FirstFault path bytes f → FirstFault path bytes g → f ≡ g }
    ensures apart { (path bytes : List ℕ) (x : KFile) (f : Fault) → Spells path x bytes → FirstFault path bytes f → ⊥ }
{}
