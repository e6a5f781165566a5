//! What the grammar promises.

ghost use Rattle.std.specs.Prelude.{◌≡◌};
ghost use Rattle.java_tree.specs.Seen.{Tokens};
ghost use Rattle.java_tree.specs.Trees.{JSpells};
ghost use Rattle.java_tree.specs.declared.exprs.JExpr.{JExpr};

/// Tokens spell at most one tree.
pub fn one_tree()
    ensures { (x y : JExpr) (text : Tokens) → JSpells x text → JSpells y text → x ≡ y }
{}
