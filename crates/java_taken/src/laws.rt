//! What is promised of a file that is taken, of a unit that spells some tokens.

ghost use Rattle.std.specs.Prelude.{◌≡◌, ℕ, List, true, Some};
ghost use Rattle.java_tree.specs.Seen.{Tokens};
ghost use Rattle.java_unit_grammar.specs.Standing.{UnitSpells};
ghost use Rattle.java_unit_grammar.specs.declared.units.JUnit.{JUnit};
ghost use Rattle.java_typed.specs.declared.units.TUnit.{TUnit};
ghost use Rattle.meanings.specs.Taken.{MainClass, class_in, is_taken_unit};
ghost use Rattle.meanings.specs.JNamed.{JNamed};
ghost use Rattle.meanings.specs.JTyped.{IsTypedFile};
ghost use Rattle.java_taken.specs.Judged as j;
ghost use Rattle.java_taken.specs.Units.{unit, may_name};

/// Its tree is one that is taken.
pub fn is_taken()
    ensures { (classes earlier : List (List ℕ)) (x : JUnit) (f : TUnit) (text : Tokens) → unit classes earlier x ≡ j.Judged.Typed f → UnitSpells x text → is_taken_unit f ≡ true }
{}

/// It is well typed (JLS 6.3, 6.4, 16).
pub fn is_typed()
    ensures { (classes earlier : List (List ℕ)) (x : JUnit) (f : TUnit) (text : Tokens) → unit classes earlier x ≡ j.Judged.Typed f → UnitSpells x text → IsTypedFile f }
{}

/// Its names, numbers and operands are spelled alike in both languages (JLS 3.8, 3.10.1, 15.17, 15.18).
pub fn is_named()
    ensures { (classes earlier : List (List ℕ)) (x : JUnit) (f : TUnit) (text : Tokens) → unit classes earlier x ≡ j.Judged.Typed f → UnitSpells x text → JNamed f }
{}

/// Its class has the name of its file, and no class of an earlier file has it (own rule where JLS 7.6 leaves it open).
pub fn may_be_named()
    ensures { (classes earlier : List (List ℕ)) (x : JUnit) (f : TUnit) (class : MainClass) → unit classes earlier x ≡ j.Judged.Typed f → class_in f ≡ Some class → may_name earlier x.path class.name ≡ true }
{}
