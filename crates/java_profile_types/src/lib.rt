//! Which rules of the profile on types a typed project breaks, and where: supertypes, raw types, keys of maps, arrays, and texts of
//! values.
#![tactic(auto)]
