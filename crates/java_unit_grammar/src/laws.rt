//! What the grammar promises of statements, members and units, with a depth of at most the number d where one is named.
//! The numbers n and k bound the steps to their leaves.

ghost use Rattle.std.specs.Prelude.{◌≡◌, ◌≤◌, ◌*◌, ℕ, suc, List};
ghost use Rattle.java_tree.specs.Seen.{Tokens};
ghost use Rattle.java_tree.specs.Trees.{max_depth};
ghost use Rattle.java_unit_grammar.specs.Restarts.{restarts};
ghost use Rattle.java_unit_grammar.specs.Standing.{MembersSpell, Node, NodeStands, Role, StatementSpells, StatementsSpell, UnitSpells};
ghost use Rattle.java_unit_grammar.specs.declared.statements.JMember.{JMember};
ghost use Rattle.java_unit_grammar.specs.declared.statements.JStatement.{JStatement};
ghost use Rattle.java_unit_grammar.specs.declared.units.JUnit.{JUnit};

/// Tokens spell at most one statement.
pub fn one_statement()
    ensures { (n k d : ℕ) (place : Role) (x y : JStatement) (text : Tokens) → StatementSpells n d place x text → StatementSpells k d place y text → x ≡ y }
{}

/// Tokens between the braces of a block spell its statements in at most one way.
pub fn one_block()
    ensures { (n k d : ℕ) (xs ys : List JStatement) (text : Tokens) → StatementsSpell n d xs text → StatementsSpell k d ys text → xs ≡ ys }
{}

/// Tokens between the braces of an anonymous class spell its members in at most one way.
pub fn one_body()
    ensures { (n k d : ℕ) (xs ys : List JMember) (text : Tokens) → MembersSpell n d xs text → MembersSpell k d ys text → xs ≡ ys }
{}

/// The tokens of a file spell what it declares in at most one way.
pub fn one_unit()
    ensures { (x y : JUnit) (text : Tokens) → UnitSpells x text → UnitSpells y text → (x.package ≡ y.package) × (x.imports ≡ y.imports) × (x.types ≡ y.types) }
{}

/// What stands at a depth of at most 200 in any number of steps stands in 602 of them for each time that depth is counted
/// from 1 on the way to a leaf: once, and once more for each body in the arguments of an enum's constants.
pub fn enough_steps()
    ensures { (n d e : ℕ) (x : Node) → d ≤ max_depth → restarts x ≤ e → NodeStands n d x → NodeStands (602 * suc e) d x }
{}
