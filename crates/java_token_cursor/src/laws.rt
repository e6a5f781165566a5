//! What the pieces promise.

ghost use Rattle.std.specs.Prelude.{◌≡◌, ◌≤◌, ℕ, List, length};
ghost use Rattle.java_tree.specs.declared.tokens.JToken.{JToken};
ghost use Rattle.java_tree.specs.Seen.{seen, between, pieces, expanded};

/// The pieces of a part of a file give its tokens back.
pub fn nothing_lost()
    ensures { (file : List JToken) (from to : ℕ) → to ≤ length file
        → expanded (seen file) (pieces to (between from to file)) ≡ between from to file }
{}
