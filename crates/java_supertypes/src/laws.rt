//! What the edges between classes promise.

ghost use Rattle.std.specs.Prelude.{◌↔◌, ℕ, List};
ghost use Rattle.java_cycles.specs.Cycles.{HasEdge};
ghost use Rattle.java_supertypes.specs.Edges.{StandsAbove};
ghost use Rattle.java_supertypes.specs.Supertypes.{class_edges};
ghost use Rattle.java_supertypes.specs.declared.heads.Heading.{Heading};

/// An edge leads from one class of the project to another exactly where the second stands directly above the first
/// (JLS 8.1.4, 8.1.5, 9.1.3).
pub fn edges_are_supertypes()
    ensures { (xs : List Heading) (a b : ℕ) → HasEdge a b (class_edges xs) ↔ StandsAbove xs a b }
{}
