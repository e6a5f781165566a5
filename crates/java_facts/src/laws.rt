//! What the facts promise of runs, of the layout, and of forms.

ghost use Rattle.std.specs.Prelude.{◌≡◌, ℕ, Bool, List, [], true, false, Some};
ghost use Rattle.java_tree.specs.declared.tokens.Position.{Position};
ghost use Rattle.java_typed.specs.declared.types.ClassRef.{ClassRef};
ghost use Rattle.java_typed.specs.declared.types.TType.{TType};
ghost use Rattle.java_typed.specs.declared.types.TResult.{TResult};
ghost use Rattle.java_typed.specs.declared.members.MemberRef.{MemberRef};
ghost use Rattle.java_typed.specs.declared.exprs.TExpr.{TExpr};
ghost use Rattle.java_typed.specs.declared.exprs.TExpr.TheVariants as e;
ghost use Rattle.java_typed.specs.declared.units.TClass.{TClass};
ghost use Rattle.java_typed.specs.declared.units.TField.{TField};
ghost use Rattle.java_typed.specs.declared.units.TUnit.{TUnit};
ghost use Rattle.java_flow.specs.Variables.{JavaAct, same_class};
ghost use Rattle.facts.specs.Uses.{Among, Further, This};
ghost use Rattle.facts.specs.Items.{Late};
ghost use Rattle.facts.specs.Runs.{Event, Construction, Initialization, Hidden, OnlyStatics};
ghost use Rattle.java_facts.specs.Kinds.{Boxed, is_object, result_sort};
ghost use Rattle.java_facts.specs.Expressions.{JavaUsed, JavaUses, Known, seen, uses_of};
ghost use Rattle.java_facts.specs.Items.{given_item};
ghost use Rattle.java_facts.specs.Accessors.{Pair, pair};
ghost use Rattle.java_facts.specs.Pairs.{IsPair, member_at};
ghost use Rattle.java_facts.specs.Project.{all_facts, is_closed, is_closed_laid, is_calm, is_idle, initializers_do, NoneUnset, touches, touches_laid};

/// Before an object of a closed class is made, no text but its constructors and initializers uses it.
pub fn closed_classes_hide()
    ensures hides { (accessor : MemberRef → Bool) (inner : ℕ → ℕ → JavaAct) (units : List TUnit) (c : ClassRef) (es : List (Event ClassRef ℕ)) (shown : Bool) → is_closed accessor inner units c ≡ true → Construction same_class (all_facts accessor inner units) c false es shown → Hidden es }
{}

/// The static initializers of a calm class and of those above it run no other text of the project, and begin the initialization
/// of no other class.
pub fn calm_classes_run_nothing_else()
    ensures statics { (accessor : MemberRef → Bool) (inner : ℕ → ℕ → JavaAct) (units : List TUnit) (c : ClassRef) (es : List (Event ClassRef ℕ)) → is_calm accessor inner units c ≡ true → Initialization same_class (all_facts accessor inner units) (initializers_do accessor inner units) c es → OnlyStatics es }
{}

/// The initialization of an idle class does nothing.
pub fn idle_classes_are_silent()
    ensures nothing { (accessor : MemberRef → Bool) (inner : ℕ → ℕ → JavaAct) (units : List TUnit) (c : ClassRef) (es : List (Event ClassRef ℕ)) → is_idle accessor inner units c ≡ true → Initialization same_class (all_facts accessor inner units) (initializers_do accessor inner units) c es → es ≡ [] }
{}

/// Where the classes are laid out so that no field is without a value, uses of statics touch as before, and a closed class stays
/// closed.
pub fn the_layout_keeps_facts()
    ensures touching { (accessor : MemberRef → Bool) (inner : ℕ → ℕ → JavaAct) (units : List TUnit) → NoneUnset accessor inner units → (here c : ClassRef) → touches_laid accessor inner units here c ≡ touches accessor inner units here c }
    ensures closing { (accessor : MemberRef → Bool) (inner : ℕ → ℕ → JavaAct) (units : List TUnit) (c : ClassRef) → is_closed accessor inner units c ≡ true → is_closed_laid accessor inner units c ≡ true }
{}

/// A call of just one method of `this`, by `super` or of a private one, uses `this` other than before a field's name.
pub fn exact_calls_show_this()
    ensures shows { (k : Known) (bodies : ℕ → JavaUses) (p at : Position) (w s : Bool) (kind : TType) (m : MemberRef) (xs : List TExpr) (r : TResult) → k.is_accessor m ≡ false → Among This (uses_of k bodies (e.ExactCall (e.This p w kind) s m at xs r)) }
{}

/// Making a text of an object of the project is a further use, on either side of `+`.
pub fn texts_of_objects_are_further()
    ensures left { (k : Known) (bodies : ℕ → JavaUses) (x : TExpr) (at : Position) (y : TExpr) → is_object (result_sort (seen k bodies x).kind) ≡ true → Among Further (uses_of k bodies (e.Concat x at y)) }
    ensures right { (k : Known) (bodies : ℕ → JavaUses) (x : TExpr) (at : Position) (y : TExpr) → is_object (result_sort (seen k bodies y).kind) ≡ true → Among Further (uses_of k bodies (e.Concat x at y)) }
{}

/// A field has accessors exactly where the conditions on the field, on its getter and on its setter hold.
pub fn accessors_are_pairs()
    ensures only { (same_type : TType → TType → Bool) (overrides : MemberRef → Bool) (classes : List TClass) (number : ℕ) (c : TClass) (place : ℕ) (f : TField) (is_constant : Bool) (p : Pair) → pair same_type overrides classes number c place f is_constant ≡ Some p → IsPair same_type overrides classes number c (member_at number place) f is_constant p }
    ensures each { (same_type : TType → TType → Bool) (overrides : MemberRef → Bool) (classes : List TClass) (number : ℕ) (c : TClass) (place : ℕ) (f : TField) (is_constant : Bool) (p : Pair) → IsPair same_type overrides classes number c (member_at number place) f is_constant p → pair same_type overrides classes number c place f is_constant ≡ Some p }
{}

/// The constant 0 of a box is no default: what a box has when nothing was stored is null.
pub fn boxes_begin_with_null()
    ensures late { (place : ℕ) (x : JavaUsed) → x.is_zero ≡ true → x.is_null ≡ false → given_item Boxed place x ≡ Late place }
{}
