//! How deep a tree may be.

ghost use Rattle.std.specs.Prelude.{◌≡◌};
ghost use Rattle.java_tree.specs.Trees.{max_depth};

/// The levels of the deepest tree that is read (a limit of this project): what is deeper is spelled by nothing.
pub const MAX_DEPTH: usize = 200;

/// The code's limit is the definitions'.
pub fn depth_limit()
    ensures { MAX_DEPTH ≡ max_depth }
{}
