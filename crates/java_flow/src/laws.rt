//! What the definitions promise of runs.

ghost use Rattle.std.specs.Prelude.{◌≡◌, ◌≤◌, ℕ, Bool, List, [], map, true, false};
ghost use Rattle.java_tree.specs.declared.tokens.Position.{Position};
ghost use Rattle.java_typed.specs.declared.members.MemberRef.{MemberRef};
ghost use Rattle.flow.specs.Acts.{Does, Then};
ghost use Rattle.flow.specs.Analyses.{Reads};
ghost use Rattle.flow.specs.Standing.{hits, stands};
ghost use Rattle.flow.specs.Runs.{Events, End, FindsAssigned, NoneLater, Normal, ReachesNone, Runs, times};
ghost use Rattle.java_flow.specs.Variables.{JavaAct, JavaUse, Simple, Target, Variable, is_field};
ghost use Rattle.java_typed.specs.declared.statements.TStatement.{TStatement};
ghost use Rattle.java_flow.specs.Statements.{statements};
ghost use Rattle.java_flow.specs.Scopes.{piece, rest};
ghost use Rattle.java_flow.specs.Faults.{assigned_again, can_end, unassigned_reads, unreachable_statements};

/// Where each read finds a variable definitely assigned, no run reads it before it is assigned (JLS 16).
pub fn reads_are_assigned()
    ensures reads { (x : JavaAct) (is : Variable → Bool) (assigned : Bool) (es : Events JavaUse) (e : End Target) → Runs x es e → unassigned_reads is assigned x ≡ [] → FindsAssigned is assigned es }
{}

/// Where each assignment finds a variable definitely unassigned, no run assigns it twice, and no lambda that a run makes
/// assigns it (JLS 4.12.4, 16).
pub fn assigned_once()
    ensures once { (x : JavaAct) (is : Variable → Bool) (es : Events JavaUse) (e : End Target) → Runs x es e → assigned_again is true x ≡ [] → times is es ≤ 1 }
    ensures later { (x : JavaAct) (is : Variable → Bool) (es : Events JavaUse) (e : End Target) → Runs x es e → assigned_again is true x ≡ [] → NoneLater is es }
{}

/// A text that assigns a final field at least and at most once does so exactly once in each run that ends: a constructor with
/// what comes before its body, the static part of a class (JLS 8.3.1.2).
pub fn finals_are_assigned()
    ensures exactly { (x : JavaAct) (member : MemberRef) (at : Position) (es : Events JavaUse) → Runs x es Normal → unassigned_reads (is_field member) false (Then x (Does (Reads (Simple member) at))) ≡ [] → assigned_again (is_field member) true x ≡ [] → times (is_field member) es ≡ 1 }
{}

/// No run reaches a statement that is unreachable, where it stands once in the text, and no run of a text that can't complete
/// normally does so (JLS 14.21).
pub fn control_comes()
    ensures reached { (x : JavaAct) (here : Position → Bool) (es : Events JavaUse) (e : End Target) → Runs x es e → hits here (stands x) ≤ 1 → 1 ≤ hits here (unreachable_statements x) → ReachesNone here es }
    ensures ends { (x : JavaAct) (es : Events JavaUse) → can_end x ≡ false → Runs x es Normal → ⊥ }
{}

/// The scopes of locals are made of what the text does.
pub fn scopes_are_parts()
    ensures parts { (inner : ℕ → JavaAct) (xs : List TStatement) → rest (map (piece inner) xs) ≡ statements inner xs }
{}
