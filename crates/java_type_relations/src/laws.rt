//! What types, supertypes and the choice of methods promise.

ghost use Rattle.std.specs.Prelude.{◌≡◌, ◌↔◌, ◌<◌, ℕ, true, false, List, Some, length};
ghost use Rattle.java_typed.specs.declared.types.ClassRef.{ClassRef};
ghost use Rattle.java_typed.specs.declared.types.TType.{TType};
ghost use Rattle.java_typed.specs.declared.types.TType.TheVariants as t;
ghost use Rattle.java_type_relations.specs.declared.heads.Heads.{Heads};
ghost use Rattle.java_type_relations.specs.declared.supers.Sought.{Sought};
ghost use Rattle.java_type_relations.specs.Types.{same};
ghost use Rattle.java_type_relations.specs.Supers.{is_sought, supertype};
ghost use Rattle.java_type_relations.specs.Above.{Above, HasClassesAbove, HasHeights, HasOneOfEach, IsAcyclic, IsBounded, IsIn, nodes};
ghost use Rattle.java_type_relations.specs.Subtypes.{is_subtype};
ghost use Rattle.java_type_relations.specs.Contexts.{is_boxed, is_unboxed};
ghost use Rattle.java_type_relations.specs.Applicable.{applicable, takes_loosely, takes_strictly};

/// Two types are found to be the same exactly where they are one.
pub fn same_is_equal()
    ensures { (x y : TType) → (same x y ≡ true) ↔ (x ≡ y) }
{}

/// The supertype that is found of a type is one of its supertypes, and it is what was sought.
pub fn supertypes_stand_above()
    ensures { (heads : Heads) (s : Sought) (x y : TType) → supertype heads s x ≡ Some y → Above heads x y × (is_sought s y ≡ true) }
{}

/// What stands above a type is found, but for its arguments where more than one parameterization of a class stands there.
pub fn supertypes_are_found()
    ensures found { (heads : Heads) → HasClassesAbove heads → IsBounded heads → (s : Sought) (x y : TType) → Above heads x y → is_sought s y ≡ true → (z : TType) × (supertype heads s x ≡ Some z) × (is_sought s z ≡ true) }
    ensures exact { (heads : Heads) → HasClassesAbove heads → IsBounded heads → HasOneOfEach heads → (s : Sought) (x y : TType) → Above heads x y → is_sought s y ≡ true → supertype heads s x ≡ Some y }
{}

/// A class type or a type parameter is a subtype of a class type exactly where that stands above it (JLS 4.10.2).
pub fn subtypes_stand_below()
    ensures classes { (heads : Heads) → HasClassesAbove heads → IsBounded heads → HasOneOfEach heads → (c d : ClassRef) (xs ys : List TType) → (is_subtype heads (t.Class c xs) (t.Class d ys) ≡ true) ↔ Above heads (t.Class c xs) (t.Class d ys) }
    ensures parameters { (heads : Heads) → HasClassesAbove heads → IsBounded heads → HasOneOfEach heads → (c d : ClassRef) (n : ℕ) (ys : List TType) → (is_subtype heads (t.Variable c n) (t.Class d ys) ≡ true) ↔ Above heads (t.Variable c n) (t.Class d ys) }
{}

/// On a table without cycles no walk is too long that may take more steps than there are classes and type parameters (JLS 8.1.4),
/// nor is one where types have heights.
pub fn walks_are_long_enough()
    ensures acyclic { (heads : Heads) → IsAcyclic heads → length (nodes heads) < heads.steps → IsBounded heads }
    ensures heights { (heads : Heads) (height : TType → ℕ) → HasHeights heads height → IsBounded heads }
{}

/// A type goes to another by one of subtyping, unboxing and boxing at most (JLS 5.3): what is below Object isn't boxed.
pub fn one_conversion()
    ensures subtyping { (heads : Heads) (a b : TType) → is_subtype heads a b ≡ true → (is_unboxed a b ≡ false) × (is_boxed heads a b ≡ false) }
    ensures unboxing { (heads : Heads) (a b : TType) → is_unboxed a b ≡ true → is_boxed heads a b ≡ false }
{}

/// An applicable method takes the arguments, and by subtyping alone where any of the methods does (JLS 15.12.2.2, 15.12.2.3).
pub fn subtyping_before_boxing()
    ensures takes { (heads : Heads) (args : List TType) (methods : List (List TType)) (m : List TType) → IsIn m (applicable heads args methods) → IsIn m methods × (takes_loosely heads args m ≡ true) }
    ensures first { (heads : Heads) (args : List TType) (methods : List (List TType)) (m n : List TType) → IsIn m (applicable heads args methods) → IsIn n methods → takes_strictly heads args n ≡ true → takes_strictly heads args m ≡ true }
{}
