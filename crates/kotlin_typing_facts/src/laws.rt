//! What is known of the parts of a well typed one.

ghost use Rattle.std.specs.Prelude.{◌≡◌, false, ◌∷◌, [], List, Option, None, Some, map};
ghost use Rattle.judged.specs.Notes.{faults_in};
ghost use Rattle.kotlin_tree.specs.declared.places.Position.{Position};
ghost use Rattle.kotlin_tree.specs.declared.places.Brackets.{Brackets};
ghost use Rattle.kotlin_tree.specs.declared.types.KName.{KName};
ghost use Rattle.kotlin_tree.specs.declared.types.KType.{KType};
ghost use Rattle.kotlin_tree.specs.declared.types.KTypeArguments.{KTypeArguments};
ghost use Rattle.kotlin_tree.specs.declared.expressions.KHeadAt.{KHeadAt};
ghost use Rattle.kotlin_tree.specs.declared.expressions.KElseAt.{KElseAt};
ghost use Rattle.kotlin_tree.specs.declared.expressions.KChoice.{KChoice};
ghost use Rattle.kotlin_tree.specs.declared.expressions.KLambdaNames.{KLambdaNames};
ghost use Rattle.kotlin_tree.specs.declared.expressions.KSuperAt.{KSuperAt};
ghost use Rattle.kotlin_tree.specs.declared.expressions.KPostfix.TheVariants as postfix;
ghost use Rattle.kotlin_tree.specs.declared.expressions.KBinary.{KBinary};
ghost use Rattle.kotlin_tree.specs.declared.expressions.KExpr.{KExpr};
ghost use Rattle.kotlin_tree.specs.declared.expressions.KExpr.TheVariants as e;
ghost use Rattle.kotlin_tree.specs.declared.statements.KBranch.{KBranch};
ghost use Rattle.kotlin_tree.specs.declared.statements.KCatch.{KCatch};
ghost use Rattle.kotlin_tree.specs.declared.statements.KFinallyAt.{KFinallyAt};
ghost use Rattle.kotlin_tree.specs.declared.statements.KLabel.{KLabel};
ghost use Rattle.kotlin_tree.specs.declared.statements.KTarget.{KTarget};
ghost use Rattle.kotlin_tree.specs.declared.statements.KStmt.{KStmt};
ghost use Rattle.kotlin_tree.specs.declared.statements.KStmt.TheVariants as st;
ghost use Rattle.kotlin_types.specs.declared.kinds.KClassRef.{KClassRef};
ghost use Rattle.kotlin_types.specs.declared.kinds.KKind.{KKind};
ghost use Rattle.kotlin_types.specs.Types.{boolean, is_sure, not_null};
ghost use Rattle.kotlin_typing.specs.declared.scope.KScope.{KScope};
ghost use Rattle.kotlin_typing.specs.declared.tables.KTables.{KTables};
ghost use Rattle.kotlin_typing.specs.Notes.{fault};
ghost use Rattle.kotlin_typing.specs.Scopes.{in_loop, in_run, past, with_parameter};
ghost use Rattle.kotlin_typing.specs.Written.{Path, arguments_written, class_at, written};
ghost use Rattle.kotlin_typing.specs.Members.{callables_above, callables_behind};
ghost use Rattle.kotlin_typing.specs.Operators.{binary_kind, either_kind};
ghost use Rattle.kotlin_typing.specs.Typing.{elements_of, form, label_of, past_left, sized, static, target_of, this_type};
ghost use Rattle.kotlin_typing.specs.Premises.{AreTyped, HasType, IsPlaced, IsTypedStatement};
ghost use Rattle.kotlin_typing_facts.specs.Facts.{AreBranches, AreCaught, IsCast, IsChoice, IsChosen, IsGiven, IsLambda, IsLeft, IsMade, IsWalked, int, type_of};

/// The type that a part is asked for as the program runs is the one that the checker gives, and there is no other.
pub fn types_are_unique()
    ensures same { (w : KTables) (s : KScope) (x : KExpr) (k : KKind) → HasType w s x k → type_of w s x ≡ Some k }
    ensures one { (w : KTables) (s : KScope) (x : KExpr) (k l : KKind) → HasType w s x k → HasType w s x l → k ≡ l }
{}

/// A call enters the most specific callable that takes its arguments, and an instance is made of no abstract class.
pub fn calls_are_chosen()
    ensures made { (w : KTables) (s : KScope) (n : KName) (types : Option KTypeArguments) (round : Brackets) (xs : List KExpr) (commas : List Position) (ts : List KKind) (c : KClassRef) (k : KKind) → (arguments_written w s.path types).result ≡ Some ts → elements_of n.name ts ≡ None → sized n.name ts ≡ None → class_at w (n.name ∷ []) ≡ Some c → HasType w s (e.Call n types round xs commas) k → IsMade w s c ts xs k }
    ensures alone { (w : KTables) (s : KScope) (n : KName) (round : Brackets) (xs : List KExpr) (commas : List Position) (k : KKind) → elements_of n.name [] ≡ None → sized n.name [] ≡ None → class_at w (n.name ∷ []) ≡ None → HasType w s (e.Call n None round xs commas) k → IsChosen w s (callables_behind w s [] n.name) xs k }
    ensures behind_class { (w : KTables) (s : KScope) (x : KExpr) (dot : Position) (n : KName) (types : Option KTypeArguments) (round : Brackets) (xs : List KExpr) (commas : List Position) (path : Path) (k : KKind) → static w s (form w x).path ≡ Some path → HasType w s (e.Method x dot n types round xs commas) k → IsChosen w s (callables_behind w s path n.name) xs k }
    ensures above { (w : KTables) (s : KScope) (at : KSuperAt) (n : KName) (round : Brackets) (xs : List KExpr) (commas : List Position) (k : KKind) → HasType w s (e.SuperCall at n round xs commas) k → IsChosen w s (callables_above w s n.name (this_type w s)) xs k }
{}

/// `e!!` takes a type without null; operands have types that the operator takes.
pub fn operators_take_their_operands()
    ensures not_null { (w : KTables) (s : KScope) (x : KExpr) (at : Position) (k : KKind) → HasType w s (e.Postfix x postfix.NotNull at) k → (j : KKind) × HasType w s x j × (not_null j ≡ k) }
    ensures binary { (w : KTables) (s : KScope) (x y : KExpr) (o : KBinary) (at : Position) (k : KKind) → HasType w s (e.Binary x o at y) k → (i : KKind) × (j : KKind) × HasType w s x i × HasType w (past_left o s) y j × (binary_kind o i j ≡ Some k) }
    ensures conditional { (w : KTables) (s : KScope) (at : KHeadAt) (c x : KExpr) (else_at : Position) (y : KExpr) (k : KKind) → HasType w s (e.IfValue at c x else_at y) k → IsPlaced w s c boolean × ((i : KKind) × (j : KKind) × HasType w s x i × HasType w s y j × (either_kind w.classes i j ≡ Some k)) }
{}

/// Loops walk through what isn't null; their statements stand within them, and a test behind or before them is a truth value.
pub fn loops_are_typed()
    ensures walked { (w : KTables) (s : KScope) (label : Option KLabel) (at : KHeadAt) (n : KName) (in_at : Position) (x : KExpr) (curly : Brackets) (xs : List KStmt) → IsTypedStatement w s (st.For label at n in_at x curly xs) → (k : KKind) × IsWalked w s x k × AreTyped w (with_parameter n.name (Some k) (in_loop (label_of label) s)) xs }
    ensures counted { (w : KTables) (s : KScope) (label : Option KLabel) (at : KHeadAt) (n : KName) (in_at : Position) (x : KExpr) (until_at : Position) (y : KExpr) (curly : Brackets) (xs : List KStmt) → IsTypedStatement w s (st.ForRange label at n in_at x until_at y curly xs) → IsPlaced w s x int × IsPlaced w s y int × AreTyped w (with_parameter n.name (Some int) (in_loop (label_of label) s)) xs }
    ensures tested_behind { (w : KTables) (s : KScope) (label : Option KLabel) (do_at : Position) (curly : Brackets) (xs : List KStmt) (at : KHeadAt) (c : KExpr) → IsTypedStatement w s (st.DoWhile label do_at curly xs at c) → AreTyped w (in_loop (label_of label) s) xs × IsPlaced w s c boolean }
{}

/// Each alternative of a `when` and of an `if`, each block of a `try`, and a block of `run` are typed at their places.
pub fn blocks_are_typed()
    ensures otherwise { (w : KTables) (s : KScope) (at : KHeadAt) (c : KExpr) (curly : Brackets) (xs : List KStmt) (else_at : Position) (other : Brackets) (ys : List KStmt) → IsTypedStatement w s (st.IfElse at c curly xs else_at other ys) → IsPlaced w s c boolean × AreTyped w s xs × AreTyped w s ys }
    ensures again { (w : KTables) (s : KScope) (at : KHeadAt) (c : KExpr) (curly : Brackets) (xs : List KStmt) (else_at : Position) (y : KStmt) → IsTypedStatement w s (st.IfElseIf at c curly xs else_at y) → IsPlaced w s c boolean × AreTyped w s xs × IsTypedStatement w s y }
    ensures tried { (w : KTables) (s : KScope) (at : Position) (curly : Brackets) (xs : List KStmt) (catches : List KCatch) → IsTypedStatement w s (st.Try at curly xs catches) → AreTyped w s xs × AreCaught w s catches }
    ensures at_last { (w : KTables) (s : KScope) (at : Position) (curly : Brackets) (xs : List KStmt) (catches : List KCatch) (last_at : KFinallyAt) (ys : List KStmt) → IsTypedStatement w s (st.TryFinally at curly xs catches last_at ys) → AreTyped w s xs × AreCaught w s catches × AreTyped w s ys }
    ensures run { (w : KTables) (s : KScope) (at : Position) (curly : Brackets) (xs : List KStmt) (k : KKind) → HasType w s (e.Run at curly xs) k → AreTyped w (in_run s) xs }
{}

/// The labels of a `when` have the type of its subject but for the `?`; its statements are typed at their places, and its values have
/// one type above them all.
pub fn alternatives_are_typed()
    ensures statements { (w : KTables) (s : KScope) (at : KHeadAt) (x : KExpr) (curly : Brackets) (branches : List KBranch) (else_at : KElseAt) (other : Brackets) (ys : List KStmt) → IsTypedStatement w s (st.When at x curly branches else_at other ys) → (k : KKind) × HasType w s x k × AreBranches w s branches k × AreTyped w s ys }
    ensures value { (w : KTables) (s : KScope) (at : KHeadAt) (x : KExpr) (curly : Brackets) (choices : List KChoice) (else_at : KElseAt) (y : KExpr) (k : KKind) → HasType w s (e.WhenValue at x curly choices else_at y) k → IsChoice w s x choices y k }
{}

/// The body of a lambda stands within it, with the parameters of the one method of its interface, and `return` in it gives what that
/// method gives.
pub fn lambdas_are_typed()
    ensures { (w : KTables) (s : KScope) (face : KType) (curly : Brackets) (names : KLambdaNames) (xs : List KStmt) (k : KKind) → HasType w s (e.Lambda face curly names xs) k → IsLambda w s face names.items xs k }
{}

/// `as` gives the type that is written, which takes null where its value may be null; `is` is a truth value.
pub fn casts_are_typed()
    ensures cast { (w : KTables) (s : KScope) (x : KExpr) (at : Position) (to : KType) (k : KKind) → HasType w s (e.As x at to) k → IsCast w s x to k }
    ensures test { (w : KTables) (s : KScope) (x : KExpr) (at : Position) (to : KType) (k : KKind) → HasType w s (e.Is x at to) k → (i : KKind) × (j : KKind) × HasType w s x i × ((written w to s.path).result ≡ Some j) × (boolean ≡ k) }
{}

/// `return` without a value stands where none is to be given, or leaves a `synchronized`.
pub fn returns_leave()
    ensures { (w : KTables) (s : KScope) (at : Position) (target : Option KTarget) → IsTypedStatement w s (st.Return at target) → IsLeft w s (target_of target) }
{}

/// `return` gives a value below what its function or lambda gives, and leaves a lambda by the name of its interface alone.
pub fn returns_are_given()
    ensures { (w : KTables) (s : KScope) (at : Position) (target : Option KTarget) (x : KExpr) → IsTypedStatement w s (st.Give at target x) → IsGiven w s (target_of target) x }
{}

/// A property of what may be null is K4 at the first token, and no other fault.
pub fn nulls_are_noted()
    ensures { (w : KTables) (s : KScope) (x : KExpr) (dot : Position) (n : KName) (k : KKind) → static w s (form w x).path ≡ None → HasType w s x k → is_sure k ≡ false → faults_in ((form w (e.Field x dot n)).judge s).notes ≡ faults_in (fault s 4 (form w x).first) }
{}
