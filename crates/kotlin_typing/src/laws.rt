//! What the typing of the Kotlin profile promises, construct by construct.

ghost use Rattle.std.specs.Prelude.{◌≡◌, true, List, ◌∷◌, Option, Some, None};
ghost use Rattle.kotlin_tree.specs.declared.places.Position.{Position};
ghost use Rattle.kotlin_tree.specs.declared.places.Brackets.{Brackets};
ghost use Rattle.kotlin_tree.specs.declared.types.KName.{KName};
ghost use Rattle.kotlin_tree.specs.declared.types.KTypeArguments.{KTypeArguments};
ghost use Rattle.kotlin_tree.specs.declared.expressions.KHeadAt.{KHeadAt};
ghost use Rattle.kotlin_tree.specs.declared.expressions.KExpr.{KExpr};
ghost use Rattle.kotlin_tree.specs.declared.expressions.KExpr.TheVariants as e;
ghost use Rattle.kotlin_tree.specs.declared.statements.KDeclared.{KDeclared};
ghost use Rattle.kotlin_tree.specs.declared.statements.KTarget.{KTarget};
ghost use Rattle.kotlin_tree.specs.declared.statements.KLabel.{KLabel};
ghost use Rattle.kotlin_tree.specs.declared.statements.KStmt.{KStmt};
ghost use Rattle.kotlin_tree.specs.declared.statements.KStmt.TheVariants as st;
ghost use Rattle.kotlin_types.specs.declared.kinds.KKind.{KKind};
ghost use Rattle.kotlin_types.specs.Types.{boolean};
ghost use Rattle.kotlin_typing.specs.declared.scope.KLocal.{KLocal};
ghost use Rattle.kotlin_typing.specs.declared.scope.KScope.{KScope};
ghost use Rattle.kotlin_typing.specs.declared.tables.KTables.{KTables};
ghost use Rattle.kotlin_typing.specs.Scopes.{in_lock, in_loop};
ghost use Rattle.kotlin_typing.specs.Written.{meant};
ghost use Rattle.kotlin_typing.specs.Forms.{Stored};
ghost use Rattle.kotlin_typing.specs.Typing.{form, label_of, static, target_of, throwable};
ghost use Rattle.kotlin_typing.specs.Premises.{AreTyped, FindsLoop, HasType, IsMethodCall, IsNearest, IsPlaced, IsRead, IsSureValue, IsTyped, IsTypedStatement, behind_statement};

/// Where no fault is noted an expression has a type, and one alone.
pub fn one_type()
    ensures has { (w : KTables) (s : KScope) (x : KExpr) → IsTyped w s x → (k : KKind) × HasType w s x k }
    ensures one { (w : KTables) (s : KScope) (x : KExpr) (k l : KKind) → HasType w s x k → HasType w s x l → k ≡ l }
{}

/// A name that has a type stands in scope, and no nearer declaration has that name.
pub fn names_stand_in_scope()
    ensures { (w : KTables) (s : KScope) (x : KName) (k : KKind) → HasType w s (e.Name x) k → (row : KLocal) × IsNearest x.name s.locals row × (row.kind ≡ k) }
{}

/// What a member is named of isn't null, but for `toString()`; each argument's type is below its parameter's.
pub fn members_are_of_values()
    ensures properties { (w : KTables) (s : KScope) (x : KExpr) (dot : Position) (n : KName) (k : KKind) → static w s (form w x).path ≡ None → HasType w s (e.Field x dot n) k → IsRead w s x n.name k }
    ensures methods { (w : KTables) (s : KScope) (x : KExpr) (dot : Position) (n : KName) (types : Option KTypeArguments) (round : Brackets) (xs : List KExpr) (commas : List Position) (k : KKind) → static w s (form w x).path ≡ None → HasType w s (e.Method x dot n types round xs commas) k → IsMethodCall w s x n.name xs k }
{}

/// A value's type is below the type of its place, and what is assigned to may be.
pub fn values_are_placed()
    ensures locals { (w : KTables) (s : KScope) (x : KDeclared) (at : Position) (value : KExpr) (want : KKind) → meant w x.kind ≡ Some want → IsTypedStatement w s (st.Local x at value) → IsPlaced w s value want }
    ensures assigned { (w : KTables) (s : KScope) (target : KExpr) (at : Position) (value : KExpr) (to : Stored) → ((form w target).target s).result ≡ Some to → IsTypedStatement w s (st.Assign target at value) → (to.is_open ≡ true) × IsPlaced w s value to.kind }
    ensures thrown { (w : KTables) (s : KScope) (at : Position) (x : KExpr) → IsTypedStatement w s (st.Throw at x) → IsPlaced w s x throwable }
{}

/// Statements stand at their places: each behind the one before, those of a loop and of a `synchronized` within it.
pub fn statements_are_typed()
    ensures first { (w : KTables) (s : KScope) (x : KStmt) (xs : List KStmt) → AreTyped w s (x ∷ xs) → IsTypedStatement w s x × AreTyped w (behind_statement w s x) xs }
    ensures expression { (w : KTables) (s : KScope) (x : KExpr) → IsTypedStatement w s (st.Expression x) → IsTyped w s x }
    ensures conditional { (w : KTables) (s : KScope) (at : KHeadAt) (condition : KExpr) (curly : Brackets) (xs : List KStmt) → IsTypedStatement w s (st.If at condition curly xs) → IsPlaced w s condition boolean × AreTyped w s xs }
    ensures repeated { (w : KTables) (s : KScope) (label : Option KLabel) (at : KHeadAt) (condition : KExpr) (curly : Brackets) (xs : List KStmt) → IsTypedStatement w s (st.While label at condition curly xs) → IsPlaced w s condition boolean × AreTyped w (in_loop (label_of label) s) xs }
    ensures locked { (w : KTables) (s : KScope) (at : KHeadAt) (lock : KExpr) (curly : Brackets) (xs : List KStmt) → IsTypedStatement w s (st.Synchronized at lock curly xs) → IsSureValue w s lock × AreTyped w (in_lock s) xs }
{}

/// A jump finds its loop, and leaves no `run`, lambda or `synchronized` on its way.
pub fn jumps_find_their_loops()
    ensures broken { (w : KTables) (s : KScope) (at : Position) (target : Option KTarget) → IsTypedStatement w s (st.Break at target) → FindsLoop (target_of target) s.around }
    ensures continued { (w : KTables) (s : KScope) (at : Position) (target : Option KTarget) → IsTypedStatement w s (st.Continue at target) → FindsLoop (target_of target) s.around }
{}
