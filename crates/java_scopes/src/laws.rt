//! What the scopes promise.

ghost use Rattle.std.specs.Prelude.{◌≡◌, ◌↔◌, ◌++◌, ◌∷◌, [], ℕ, Bool, List, true, false, length};
ghost use Rattle.java_tree.specs.declared.tokens.Position.{Position};
ghost use Rattle.java_name_uses.specs.declared.uses.Naming.TheVariants.{Variable};
ghost use Rattle.java_name_uses.specs.declared.uses.Use.{Use};
ghost use Rattle.java_name_uses.specs.declared.uses.Use.TheVariants.{Name};
ghost use Rattle.java_scopes.specs.Locals.{AreApart, IsIn};
ghost use Rattle.java_scopes.specs.Scopes.{Locals, Setting, closed, expression, field_or_type, first, has_local, is_behind, may_break, may_continue, may_jump, now, run};
ghost use Rattle.java_scopes.specs.Targets.{Encloses, IsBreakable, IsLabelOf, IsLoop};
ghost use Rattle.java_scopes.specs.declared.states.Current.{Current};
ghost use Rattle.java_scopes.specs.declared.states.Current.TheVariants.{Value};
ghost use Rattle.java_scopes.specs.declared.states.Frame.{Frame};
ghost use Rattle.java_scopes.specs.declared.states.Opened.{Opened};
ghost use Rattle.java_scopes.specs.declared.states.State.{State};

/// A local in scope was declared before, at the place beside it (JLS 6.1, 6.3).
pub fn locals_are_declared()
    ensures { (g : Setting) (xs : List Use) (name : List ℕ) (at : Position) → IsIn (name, at) (run g first xs).locals → IsIn (Name Variable name at) xs }
{}

/// No two locals in scope have one name (JLS 6.4), so the one that is meant is the only one.
pub fn locals_are_apart()
    ensures { (g : Setting) (xs : List Use) → AreApart (run g first xs).locals }
{}

/// At the end of a scope those locals are in scope that were when it began (JLS 6.3).
pub fn scope_ends()
    ensures locals { (s inside : State) (frame : Frame) (more : Locals) → is_behind s frame more inside → (closed inside).locals ≡ s.locals }
    ensures frames { (s inside : State) (frame : Frame) (more : Locals) → is_behind s frame more inside → (closed inside).frames ≡ s.frames }
{}

/// A local in scope is meant, and no field or class of its name (JLS 6.4.1); where none is in scope, a field, a class or a
/// package is.
pub fn local_is_meant()
    ensures local { (g : Setting) (s : State) (name : List ℕ) (at : Position) → has_local name s.locals ≡ true → expression g s name at ≡ now s Value }
    ensures other { (g : Setting) (s : State) (name : List ℕ) (at : Position) → has_local name s.locals ≡ false → expression g s name at ≡ field_or_type g s name at (g.field name) }
{}

/// A `break` is taken exactly where a loop or a switch stands around it, a `continue` where a loop does; and no lambda between
/// (JLS 14.15, 14.16, 15.27.2).
pub fn jumps_have_targets()
    ensures breaks { (frames : List Opened) → (may_break false frames ≡ true) ↔ Encloses IsBreakable frames }
    ensures continues { (frames : List Opened) → (may_continue false frames ≡ true) ↔ Encloses IsLoop frames }
{}

/// A jump to a label is taken only where the label's statement stands around it, which of a `continue` is a loop; and no lambda
/// between.
pub fn labels_are_around()
    ensures { (name : List ℕ) (needs_loop : Bool) (frames : List Opened) → may_jump name needs_loop false frames ≡ true → Encloses (IsLabelOf name needs_loop) frames }
{}
