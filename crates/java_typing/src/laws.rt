//! What the typing of expressions promises.

ghost use Rattle.std.specs.Prelude.{◌≡◌};
ghost use Rattle.java_type_relations.specs.declared.heads.Heads.{Heads};
ghost use Rattle.java_typed.specs.Reading.{type_of};
ghost use Rattle.java_typed.specs.declared.exprs.TExpr.{TExpr};
ghost use Rattle.java_typed.specs.declared.types.TResult.{TResult};
ghost use Rattle.java_typing.specs.Typing.{Declared, HasType};

/// The type that a well-typed expression has is the one that its tree says: it has no other.
pub fn one_type()
    ensures { (heads : Heads) (declared : Declared) (x : TExpr) (r : TResult) → HasType heads declared x r → type_of x ≡ r }
{}
