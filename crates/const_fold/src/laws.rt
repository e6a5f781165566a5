// Laws of the values: each is the contract of a function that does nothing.

ghost use Rattle.const_fold.specs.Laws.{OperatorsAreCovered, CastsAreCovered, OneValue};

/// Each operator has a value on each two constants but where the divisor is 0 or the operator is not defined on the kinds.
pub fn operators_are_covered()
    ensures { OperatorsAreCovered }
{}

/// A cast has a value exactly at a number.
pub fn casts_are_covered()
    ensures { CastsAreCovered }
{}

/// A constant expression has one value at most.
pub fn one_value()
    ensures { OneValue }
{}
