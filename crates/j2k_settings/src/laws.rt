//! What follows from the definitions alone.
ghost use Rattle.std.specs.Prelude.{◌≡◌, List, ℕ};
ghost use Rattle.j2k_settings.specs.Settings.{Sets};

/// Bytes have one list of entries at most.
pub fn one_list()
    ensures { (bytes : List ℕ) → (entries others : List (List ℕ)) → Sets bytes entries → Sets bytes others → entries ≡ others }
{}
