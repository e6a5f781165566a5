//! What the grammar promises of the heads of statements, with parts at a depth of at most a number.

ghost use Rattle.std.specs.Prelude.{◌≡◌, ℕ};
ghost use Rattle.java_tree.specs.Seen.{Tokens};
ghost use Rattle.java_statement_grammar.specs.Heads.{ForSpells, LockSpells, SimpleSpells, SwitchSpells};
ghost use Rattle.java_statement_grammar.specs.declared.statements.JForHead.{JForHead};
ghost use Rattle.java_statement_grammar.specs.declared.statements.JLock.{JLock};
ghost use Rattle.java_statement_grammar.specs.declared.statements.JSimple.{JSimple};
ghost use Rattle.java_statement_grammar.specs.declared.statements.JSwitchLabel.{JSwitchLabel};

/// Tokens before a `;` spell at most one simple statement.
pub fn one_simple()
    ensures { (d : ℕ) (x y : JSimple) (text : Tokens) → SimpleSpells d x text → SimpleSpells d y text → x ≡ y }
{}

/// Tokens in the parentheses of a `for` spell at most one head.
pub fn one_for()
    ensures { (d : ℕ) (x y : JForHead) (text : Tokens) → ForSpells d x text → ForSpells d y text → x ≡ y }
{}

/// Tokens in the parentheses of a synchronized statement spell at most one lock.
pub fn one_lock()
    ensures { (d : ℕ) (x y : JLock) (text : Tokens) → LockSpells d x text → LockSpells d y text → x ≡ y }
{}

/// Tokens spell at most one label of a switch.
pub fn one_label()
    ensures { (d : ℕ) (x y : JSwitchLabel) (text : Tokens) → SwitchSpells d x text → SwitchSpells d y text → x ≡ y }
{}
