//! What the rules refuse.

ghost use Rattle.std.specs.Prelude.{◌≡◌, ℕ, Bool, true, false, List, ◌∷◌, ◌++◌};
ghost use Rattle.java_tree.specs.declared.tokens.Position.{Position};
ghost use Rattle.java_typed.specs.declared.members.MemberRef.{MemberRef};
ghost use Rattle.java_typed.specs.declared.exprs.TExpr.{TExpr};
ghost use Rattle.java_typed.specs.declared.exprs.TExpr.TheVariants as e;
ghost use Rattle.java_typed.specs.declared.statements.TLock.TheVariants as lock;
ghost use Rattle.java_typed.specs.declared.units.TUnit.{TUnit};
ghost use Rattle.java_flow.specs.Variables.{JavaAct};
ghost use Rattle.java_facts.specs.Kinds.{result_sort};
ghost use Rattle.java_facts.specs.Project.{NoneUnset, classes_of};
ghost use Rattle.java_profile.specs.Unset.{AllKept};
ghost use Rattle.java_profile.specs.Faults.{fault, P5, P6, P7};
ghost use Rattle.java_profile.specs.Expressions.{is_valued, judged};
ghost use Rattle.java_profile.specs.Statements.{is_text_or_box, lock_faults, value_faults};

/// `==` of two references, neither the literal null, is refused at its mark where the first is a String, a box, an Object or of a
/// type variable.
pub fn values_have_no_identity()
    ensures refused { (constants : MemberRef → Bool) (x : TExpr) (b : Bool) (at : Position) (y : TExpr) → (judged constants x).is_null ≡ false → (judged constants y).is_null ≡ false → is_valued (judged constants x).kind ≡ true → (judged constants (e.Same x b at y)).faults ≡ fault P5 at ∷ ((judged constants x).faults ++ (judged constants y).faults) }
{}

/// A static member is refused behind an expression.
pub fn statics_are_reached_by_classes()
    ensures refused { (constants : MemberRef → Bool) (x y : TExpr) → (judged constants (e.Through x y)).faults ≡ fault P7 (judged constants x).first ∷ ((judged constants x).faults ++ (judged constants y).faults) }
{}

/// A lock on a String or a box is refused.
pub fn values_are_no_locks()
    ensures refused { (constants : MemberRef → Bool) (x : TExpr) → is_text_or_box (result_sort (judged constants x).kind) ≡ true → lock_faults constants (lock.Value x) ≡ fault P6 (judged constants x).first ∷ value_faults constants x }
{}

/// Where no static of a project is late, none is unset below a class that isn't calm: the layout keeps its facts.
pub fn no_static_is_unset()
    ensures { (is_accessor : MemberRef → Bool) (inner : ℕ → ℕ → JavaAct) (units : List TUnit) → AllKept is_accessor inner units 0 (classes_of units) → NoneUnset is_accessor inner units }
{}
