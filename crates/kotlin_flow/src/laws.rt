//! What the definitions promise of runs.

ghost use Rattle.std.specs.Prelude.{◌≡◌, ◌≤◌, ℕ, Bool, List, [], ◌∷◌, ◌++◌, map, Option, Some, None, true, false};
ghost use Rattle.std.specs.List.{AllByRecursion};
ghost use Rattle.kotlin_tree.specs.declared.places.Position.{Position};
ghost use Rattle.kotlin_tree.specs.declared.places.Brackets.{Brackets};
ghost use Rattle.kotlin_tree.specs.declared.expressions.KExpr.{KExpr};
ghost use Rattle.kotlin_tree.specs.declared.expressions.KExpr.TheVariants as e;
ghost use Rattle.kotlin_tree.specs.declared.expressions.KHeadAt.{KHeadAt};
ghost use Rattle.kotlin_tree.specs.declared.statements.KStmt.{KStmt};
ghost use Rattle.kotlin_tree.specs.declared.statements.KStmt.TheVariants as s;
ghost use Rattle.kotlin_tree.specs.declared.statements.KBlock.{KBlock};
ghost use Rattle.kotlin_tree.specs.declared.members.KTyped.{KTyped};
ghost use Rattle.kotlin_tree.specs.declared.members.KParams.{KParams};
ghost use Rattle.kotlin_tree.specs.declared.files.KClass.{KClass};
ghost use Rattle.kotlin_tree.specs.declared.members.KMember.{KMember};
ghost use Rattle.flow.specs.Standing.{hits, stands};
ghost use Rattle.flow.specs.Analyses.{Reaches};
ghost use Rattle.flow.specs.Runs.{By, Did, End, Events, Exit, FindsAssigned, Jumped, Normal, ReachesNone, Runs, append};
ghost use Rattle.kotlin_flow.specs.Variables.{Blank, Declaration, KotlinAct, KotlinUse, Names, Target, Unlocked, Variable, same_variable};
ghost use Rattle.kotlin_flow.specs.Expressions.{done};
ghost use Rattle.kotlin_flow.specs.Statements.{block};
ghost use Rattle.kotlin_flow.specs.Texts.{line, said};
ghost use Rattle.kotlin_flow.specs.Faults.{assigned_again, assigned_at_end, blanks_faults, can_end, unassigned_reads, unreachable_statements};
ghost use Rattle.kotlin_flow.specs.Members.{Bare, Constructor, calls_this, constructor_does, constructors, function_does, functions, initializers, bare, blank_properties, companions};
ghost use Rattle.kotlin_flow.specs.Files.{class_faults, companion_faults, ends, member_blanks, member_faults, object_texts, property_faults};
ghost use Rattle.kotlin_flow.specs.Variables.{OfThis};
ghost use Rattle.kotlin_flow.specs.Promises.{AssignsNever, AssignsOnce, IsAssigned, Kept, NeverEnds};

/// Where each read finds a variable definitely assigned, no run reads it before it is assigned.
pub fn reads_are_assigned()
    ensures reads { (x : KotlinAct) (is : Variable → Bool) (assigned : Bool) (es : Events KotlinUse) (e : End Target) → Runs x es e → unassigned_reads is assigned x ≡ [] → FindsAssigned is assigned es }
{}

/// Where each assignment finds a variable definitely unassigned, no run assigns it twice, and no lambda that a run makes
/// assigns it; where it isn't unassigned before the text, none assigns it.
pub fn assigned_once()
    ensures once { (x : KotlinAct) (is : Variable → Bool) → assigned_again is true x ≡ [] → AssignsOnce is x }
    ensures never { (x : KotlinAct) (is : Variable → Bool) → assigned_again is false x ≡ [] → AssignsNever is x }
{}

/// Where a variable is definitely assigned at the end of a text, each run that ends has assigned it.
pub fn assigned_at_the_end()
    ensures assigned { (x : KotlinAct) (is : Variable → Bool) → assigned_at_end is x ≡ true → IsAssigned is x }
{}

/// No run of a text that can't end does so, and none reaches a statement that is unreachable, where it stands once in the text.
pub fn control_comes()
    ensures ends { (x : KotlinAct) → can_end x ≡ false → NeverEnds x }
    ensures reached { (x : KotlinAct) (here : Position → Bool) (es : Events KotlinUse) (e : End Target) → Runs x es e → hits here (stands x) ≤ 1 → 1 ≤ hits here (unreachable_statements x) → ReachesNone here es }
{}

/// What stands behind a statement that can't end isn't reached: a run of both is one of the first.
pub fn nothing_behind()
    ensures behind { (x : KStmt) (more : List KStmt) (names : Names) (es : Events KotlinUse) (e : End Target) → can_end ((line x).does names) ≡ false → Runs (block (map line (x ∷ more)) names) es e → Runs ((line x).does names) es e }
{}

/// `run` runs in its place: it can end where its block can, and an exit of the block is one of the `run`.
pub fn run_stands_in_place()
    ensures ends { (at : Position) (curly : Brackets) (xs : List KStmt) (names : Names) → can_end ((line (s.Expression (e.Run at curly xs))).does names) ≡ can_end (block (map line xs) names) }
    ensures exits { (at : Position) (curly : Brackets) (xs : List KStmt) (names : Names) (es : Events KotlinUse) (j : Exit Target) → Runs (block (map line xs) names) es (By j) → Runs ((line (s.Expression (e.Run at curly xs))).does names) (Did (Reaches at) es) (By j) }
{}

/// `return@synchronized` ends its block: a run of the block that jumps so is one of the statement that ends, and none leaves the
/// statement so but from its lock.
pub fn return_leaves_the_lock()
    ensures ends { (at : KHeadAt) (lock : KExpr) (curly : Brackets) (xs : List KStmt) (names : Names) (es fs : Events KotlinUse) → Runs (done (said lock) names) es Normal → Runs (block (map line xs) names) fs (By (Jumped Unlocked)) → Runs ((line (s.Synchronized at lock curly xs)).does names) (Did (Reaches at.word) (append es fs)) Normal }
    ensures stays { (at : KHeadAt) (lock : KExpr) (curly : Brackets) (xs : List KStmt) (names : Names) → ((fs : Events KotlinUse) → Runs (done (said lock) names) fs (By (Jumped Unlocked)) → ⊥) → (es : Events KotlinUse) → Runs ((line (s.Synchronized at lock curly xs)).does names) es (By (Jumped Unlocked)) → ⊥ }
{}

/// Where nothing is noted of a member, each local without a value is assigned before it is read, and a `val` once; and a body with
/// a result doesn't end without it.
pub fn members_are_kept()
    ensures locals { (x : Bare) → member_faults x ≡ [] → AllByRecursion Kept (member_blanks x) }
    ensures results { (kind : KTyped) (params : KParams) (body : KBlock) → ends (Some kind) params body ≡ [] → NeverEnds (function_does params body) }
{}

/// Where nothing is noted of a property without a value, the initializers and each constructor that calls no other of its class
/// first assign it; a `val` they assign at most once, and no other text of the class does.
pub fn properties_are_kept()
    ensures assigned { (own : List ℕ → Variable) (members : List Bare) (others : List KotlinAct) (d : Declaration) → property_faults own members others d ≡ [] → AllByRecursion (λ (k : Constructor). calls_this k.first ≡ false → IsAssigned (same_variable (own d.name)) (constructor_does (initializers own members) k)) (constructors members) }
    ensures assigned_without_constructor { (own : List ℕ → Variable) (members : List Bare) (others : List KotlinAct) (d : Declaration) → property_faults own members others d ≡ [] → constructors members ≡ [] → IsAssigned (same_variable (own d.name)) (initializers own members) }
    ensures once { (own : List ℕ → Variable) (members : List Bare) (others : List KotlinAct) (d : Declaration) → property_faults own members others d ≡ [] → d.is_val ≡ true → AllByRecursion (λ (k : Constructor). calls_this k.first ≡ false → AssignsOnce (same_variable (own d.name)) (constructor_does (initializers own members) k)) (constructors members) }
    ensures never_behind_this { (own : List ℕ → Variable) (members : List Bare) (others : List KotlinAct) (d : Declaration) → property_faults own members others d ≡ [] → d.is_val ≡ true → AllByRecursion (λ (k : Constructor). calls_this k.first ≡ true → AssignsNever (same_variable (own d.name)) (constructor_does (initializers own members) k)) (constructors members) }
    ensures once_without_constructor { (own : List ℕ → Variable) (members : List Bare) (others : List KotlinAct) (d : Declaration) → property_faults own members others d ≡ [] → d.is_val ≡ true → constructors members ≡ [] → AssignsOnce (same_variable (own d.name)) (initializers own members) }
    ensures never_elsewhere { (own : List ℕ → Variable) (members : List Bare) (others : List KotlinAct) (d : Declaration) → property_faults own members others d ≡ [] → d.is_val ≡ true → AllByRecursion (AssignsNever (same_variable (own d.name))) (functions members ++ others) }
{}

/// Where nothing is noted of a class, nothing is of its members, its properties and its companions.
pub fn classes_are_kept()
    ensures members { (x : KClass) → class_faults x ≡ [] → AllByRecursion (λ (m : Bare). member_faults m ≡ []) (map bare x.members) }
    ensures properties { (x : KClass) → class_faults x ≡ [] → AllByRecursion (λ (d : Declaration). property_faults OfThis (map bare x.members) [] d ≡ []) (blank_properties (map bare x.members)) }
    ensures companions { (x : KClass) → class_faults x ≡ [] → AllByRecursion (λ (ms : List KMember). companion_faults x.name.name (object_texts (map bare x.members)) (map bare ms) ≡ []) (companions (map bare x.members)) }
{}
