//! What a text does to its variables and where its control goes, in words of no language: definite assignment and
//! reachability, and the runs of a text that they speak of.
#![tactic(auto)]
