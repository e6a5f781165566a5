//! What operators promise.

ghost use Rattle.java_operators.specs.Laws.{BinaryHasType, PromotionIsLeast, PromotionTakesBoth, UnaryHasType};

/// Two numbers are promoted to the least of int and long that takes both (JLS 5.6.2).
pub fn promotion_is_least()
    ensures takes { PromotionTakesBoth }
    ensures least { PromotionIsLeast }
{}

/// An operator that takes its operands, with their conversions, is well typed and has the type that is said here.
pub fn operators_have_types()
    ensures unary { UnaryHasType }
    ensures binary { BinaryHasType }
{}
