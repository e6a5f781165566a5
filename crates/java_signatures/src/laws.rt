//! What signatures promise.

ghost use Rattle.std.specs.Prelude.{◌≡◌, ◌↔◌, ℕ, List, []};
ghost use Rattle.std.specs.Bool.{Decides};
ghost use Rattle.java_classes.specs.declared.faults.NameFault.{NameFault};
ghost use Rattle.java_signatures.specs.Same.{HaveSameErasure, IsIn, IsSecond, second_at};
ghost use Rattle.java_signatures.specs.Signatures.{faults_from, same_signature};
ghost use Rattle.java_signatures.specs.declared.signatures.Signature.{Signature};

/// The test of two signatures tells whether they have the same erasure (JLS 4.6, 8.4.2).
pub fn same_signatures()
    ensures { (x y : Signature) → Decides (same_signature x y) (HaveSameErasure x y) }
{}

/// At fault are the methods and constructors that stand behind one of the same erasure, each at its name, and nothing else
/// (JLS 8.4.8.3, 8.8.2).
pub fn second_signatures()
    ensures { (unit : ℕ) (xs : List Signature) (fault : NameFault) → IsIn fault (faults_from unit [] xs) ↔ ((x : Signature) × (IsSecond xs x × (fault ≡ second_at unit x))) }
{}
