// What is asked for is one thing.
ghost use Rattle.std.specs.Prelude.{◌≡◌, List, ℕ};
ghost use Rattle.j2k_base.specs.declared.places.Fault.{Fault};
ghost use Rattle.j2k_io.specs.Disks.{Files};
ghost use Rattle.j2k_sources.specs.declared.loading.Sources.{Sources};
ghost use Rattle.j2k_tool.specs.Asks.{Answer, Asks};
ghost use Rattle.j2k_tool.specs.Projects.{IsFirstFault};

/// Words and files ask for one answer.
pub fn one_answer()
    ensures { (words : List (List ℕ)) (files : Files) (a b : Answer) → Asks words files a → Asks words files b → a ≡ b }
{}

/// A project has one first fault.
pub fn one_fault()
    ensures { (sources : Sources) (a b : Fault) → IsFirstFault sources a → IsFirstFault sources b → a ≡ b }
{}
