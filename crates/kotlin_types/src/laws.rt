//! What equality and subtyping of types promise.

ghost use Rattle.std.specs.Prelude.{◌≡◌, ◌≢◌, ◌↔◌, ℕ, true, List};
ghost use Rattle.kotlin_types.specs.declared.kinds.KHead.{KHead};
ghost use Rattle.kotlin_types.specs.declared.kinds.KHead.TheVariants as head;
ghost use Rattle.kotlin_types.specs.declared.kinds.Nullability.TheVariants as null;
ghost use Rattle.kotlin_types.specs.declared.kinds.KKind.{KKind};
ghost use Rattle.kotlin_types.specs.declared.classes.KClasses.{KClasses};
ghost use Rattle.kotlin_types.specs.Types.{arguments_of, head_of, nullability_of, nullable, same, same_but_null};
ghost use Rattle.kotlin_types.specs.Supertypes.{is_subtype};
ghost use Rattle.kotlin_types.specs.Below.{Below, HasHeights, HasValues};

/// Two types are found to be the same exactly where they are one.
pub fn same_is_equal()
    ensures { (x y : KKind) → (same x y ≡ true) ↔ (x ≡ y) }
{}

/// What is found to be a subtype stands below, and on a table without cycles all that stands below is found.
pub fn subtypes_stand_below()
    ensures told { (classes : KClasses) (a b : KKind) → is_subtype classes a b ≡ true → Below classes a b }
    ensures found { (classes : KClasses) (height : KHead → ℕ) → HasHeights classes height → (a b : KKind) → Below classes a b → is_subtype classes a b ≡ true }
{}

/// Subtyping is an order of the types of values, with `Nothing` below them.
pub fn subtyping_is_an_order()
    ensures reflexive { (classes : KClasses) (a : KKind) → is_subtype classes a a ≡ true }
    ensures transitive { (classes : KClasses) (height : KHead → ℕ) → HasHeights classes height → (a b c : KKind) → is_subtype classes a b ≡ true → is_subtype classes b c ≡ true → is_subtype classes a c ≡ true }
    ensures antisymmetric { (classes : KClasses) (height : KHead → ℕ) → HasHeights classes height → HasValues classes → (a b : KKind) → head_of a ≢ head.Nothing → head_of b ≢ head.Nothing → is_subtype classes a b ≡ true → is_subtype classes b a ≡ true → a ≡ b }
{}

/// `T` is below `T?`, and `T?` is below nullable types alone.
pub fn null_stays()
    ensures below { (classes : KClasses) (a : KKind) → is_subtype classes a (nullable a) ≡ true }
    ensures above { (classes : KClasses) (a b : KKind) → is_subtype classes a b ≡ true → nullability_of a ≡ null.Also → nullability_of b ≡ null.Also }
{}

/// Type parameters and components are invariant: of one class no type is below one with other arguments.
pub fn arguments_are_invariant()
    ensures { (classes : KClasses) (height : KHead → ℕ) → HasHeights classes height → HasValues classes → (a b : KKind) → head_of a ≢ head.Nothing → head_of a ≡ head_of b → is_subtype classes a b ≡ true → arguments_of a ≡ arguments_of b }
{}
