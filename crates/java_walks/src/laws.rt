//! What walks promise: all that is told of a tree is told of its nodes, and of each node all.

ghost use Rattle.std.specs.Prelude.{◌≡◌, ℕ, Bool, true, List};
ghost use Rattle.std.specs.List.{AllByRecursion};
ghost use Rattle.java_typed.specs.declared.types.TWritten.{TWritten};
ghost use Rattle.java_typed.specs.declared.exprs.TExpr.{TExpr, every-TExpr};
ghost use Rattle.java_typed.specs.declared.exprs.TExpr.TheOpen.{TExpr-F};
ghost use Rattle.java_typed.specs.declared.statements.TBody.{TBody};
ghost use Rattle.java_typed.specs.declared.statements.TBody.TheFolds.{every-TBody, every-TStatement};
ghost use Rattle.java_typed.specs.declared.statements.TStatement.{TStatement};
ghost use Rattle.java_typed.specs.declared.units.TClass.{TClass};
ghost use Rattle.java_typed.specs.declared.units.TUnit.{TUnit};
ghost use Rattle.java_walks.specs.Every.{EveryClass, EveryUnit, of_unit};
ghost use Rattle.java_walks.specs.Parts.{collected};
ghost use Rattle.java_walks.specs.Texts.{of_body, of_class, of_statement};
ghost use Rattle.java_walks.specs.Nodes.{own_body, own_catch, own_group, own_statement, own_told};

/// All that is told of an expression satisfies a condition exactly where all that each of its nodes tells does.
pub fn walks_see_all_nodes<I, A>()
    ensures each { (known : TExpr-F I → I) (own : TExpr-F I → List A) (test : A → Bool) (x : TExpr) → AllByRecursion (λ a. test a ≡ true) (collected known own x).told → every-TExpr (λ n. AllByRecursion (λ a. test a ≡ true) (own_told known own n)) x }
    ensures only { (known : TExpr-F I → I) (own : TExpr-F I → List A) (test : A → Bool) (x : TExpr) → every-TExpr (λ n. AllByRecursion (λ a. test a ≡ true) (own_told known own n)) x → AllByRecursion (λ a. test a ≡ true) (collected known own x).told }
{}

/// All that is told of a statement, or of the body of a lambda, satisfies a condition exactly where all that each statement,
/// body, group and catch within it tells does.
pub fn walks_see_all_statements<A>()
    ensures each { (of_value : TExpr → List A) (of_type : TWritten → List A) (of_inner : ℕ → List A) (test : A → Bool) (x : TStatement) → AllByRecursion (λ a. test a ≡ true) (of_statement of_value of_type of_inner x) → every-TStatement (λ n. AllByRecursion (λ a. test a ≡ true) (own_body of_value of_type of_inner n)) (λ n. AllByRecursion (λ a. test a ≡ true) (own_statement of_value of_type of_inner n)) (λ n. AllByRecursion (λ a. test a ≡ true) (own_group of_value of_type of_inner n)) (λ n. AllByRecursion (λ a. test a ≡ true) (own_catch of_value of_type of_inner n)) x }
    ensures only { (of_value : TExpr → List A) (of_type : TWritten → List A) (of_inner : ℕ → List A) (test : A → Bool) (x : TStatement) → every-TStatement (λ n. AllByRecursion (λ a. test a ≡ true) (own_body of_value of_type of_inner n)) (λ n. AllByRecursion (λ a. test a ≡ true) (own_statement of_value of_type of_inner n)) (λ n. AllByRecursion (λ a. test a ≡ true) (own_group of_value of_type of_inner n)) (λ n. AllByRecursion (λ a. test a ≡ true) (own_catch of_value of_type of_inner n)) x → AllByRecursion (λ a. test a ≡ true) (of_statement of_value of_type of_inner x) }
    ensures each_body { (of_value : TExpr → List A) (of_type : TWritten → List A) (of_inner : ℕ → List A) (test : A → Bool) (x : TBody) → AllByRecursion (λ a. test a ≡ true) (of_body of_value of_type of_inner x) → every-TBody (λ n. AllByRecursion (λ a. test a ≡ true) (own_body of_value of_type of_inner n)) (λ n. AllByRecursion (λ a. test a ≡ true) (own_statement of_value of_type of_inner n)) (λ n. AllByRecursion (λ a. test a ≡ true) (own_group of_value of_type of_inner n)) (λ n. AllByRecursion (λ a. test a ≡ true) (own_catch of_value of_type of_inner n)) x }
    ensures only_body { (of_value : TExpr → List A) (of_type : TWritten → List A) (of_inner : ℕ → List A) (test : A → Bool) (x : TBody) → every-TBody (λ n. AllByRecursion (λ a. test a ≡ true) (own_body of_value of_type of_inner n)) (λ n. AllByRecursion (λ a. test a ≡ true) (own_statement of_value of_type of_inner n)) (λ n. AllByRecursion (λ a. test a ≡ true) (own_group of_value of_type of_inner n)) (λ n. AllByRecursion (λ a. test a ≡ true) (own_catch of_value of_type of_inner n)) x → AllByRecursion (λ a. test a ≡ true) (of_body of_value of_type of_inner x) }
{}

/// All that is told of a class, or of a unit, satisfies a condition exactly where all that each type, expression and statement of its
/// members, constructors and initializers tells does.
pub fn walks_see_whole_units<A>()
    ensures each_class { (of_value : TExpr → List A) (of_type : TWritten → List A) (of_inner : ℕ → List A) (test : A → Bool) (c : TClass) → AllByRecursion (λ a. test a ≡ true) (of_class of_value of_type of_inner c) → EveryClass of_value of_type of_inner (λ a. test a ≡ true) c }
    ensures only_class { (of_value : TExpr → List A) (of_type : TWritten → List A) (of_inner : ℕ → List A) (test : A → Bool) (c : TClass) → EveryClass of_value of_type of_inner (λ a. test a ≡ true) c → AllByRecursion (λ a. test a ≡ true) (of_class of_value of_type of_inner c) }
    ensures each_unit { (of_value : TExpr → List A) (of_type : TWritten → List A) (test : A → Bool) (u : TUnit) → AllByRecursion (λ a. test a ≡ true) (of_unit of_value of_type u) → EveryUnit of_value of_type (λ a. test a ≡ true) u }
    ensures only_unit { (of_value : TExpr → List A) (of_type : TWritten → List A) (test : A → Bool) (u : TUnit) → EveryUnit of_value of_type (λ a. test a ≡ true) u → AllByRecursion (λ a. test a ≡ true) (of_unit of_value of_type u) }
{}
