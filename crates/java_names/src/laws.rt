//! What the binding of names promises.
ghost use Rattle.std.specs.Prelude.{◌≡◌, ℕ, List};
ghost use Rattle.j2k_base.specs.declared.places.Fault.{Fault};
ghost use Rattle.java_unit_grammar.specs.declared.units.JUnit.{JUnit};
ghost use Rattle.java_names.specs.Binding.{IsBound, IsRefused};

/// A project is refused with one fault at most.
pub fn one_refusal()
    ensures { (units : List JUnit) (entries : List (List ℕ)) (a b : Fault) → IsRefused units entries a → IsRefused units entries b → a ≡ b }
{}

/// No project is both bound and refused.
pub fn not_both()
    ensures { (units : List JUnit) (entries : List (List ℕ)) (fault : Fault) → IsBound units entries → IsRefused units entries fault → ⊥ }
{}
