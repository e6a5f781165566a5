//! What the text of a project promises.

ghost use Rattle.std.specs.Prelude.{◌≡◌, List, map};
ghost use Rattle.j2k_base.specs.declared.places.Fault.{Fault};
ghost use Rattle.j2k_base.specs.declared.series.SourceFile.{SourceFile};
ghost use Rattle.java_unit_grammar.specs.declared.units.JUnit.{JUnit};
ghost use Rattle.java_project.specs.Files.{IsSpelled, IsRefused};

/// Files spell one list of units at most, each of the path of its file.
pub fn one_spelling()
    ensures once { (files : List SourceFile) (units others : List JUnit) → IsSpelled files units → IsSpelled files others → units ≡ others }
    ensures paths { (files : List SourceFile) (units : List JUnit) → IsSpelled files units → map (λ unit. unit.path) units ≡ map (λ file. file.path) files }
{}

/// Files have one first fault at most, and none where they spell units.
pub fn one_fault()
    ensures once { (files : List SourceFile) (f g : Fault) → IsRefused files f → IsRefused files g → f ≡ g }
    ensures apart { (files : List SourceFile) (units : List JUnit) (fault : Fault) → IsSpelled files units → IsRefused files fault → ⊥ }
{}
