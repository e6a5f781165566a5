//! What the search for cycles promises.

ghost use Rattle.std.specs.Prelude.{◌≡◌, ◌↔◌, ℕ, List, IsTrue};
ghost use Rattle.java_cycles.specs.Cycles.{Depends, is_cyclic};
ghost use Rattle.java_cycles.specs.declared.edges.Edge.{Edge};

/// A class is found to be in a cycle exactly where it depends on itself.
pub fn cycles_are_found()
    ensures { (edges : List Edge) (a : ℕ) → IsTrue (is_cyclic edges a) ↔ Depends edges a a }
{}
