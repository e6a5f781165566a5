//! What parts of a program use and what the initializers of its classes do, in words of no language: closed, calm, idle and
//! leading, the layout that keeps them, and the runs that they speak of.
#![tactic(auto)]
