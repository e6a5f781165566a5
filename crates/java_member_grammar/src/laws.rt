//! What the grammar promises of heads, constants and lines, with parts at a depth of at most a number.

ghost use Rattle.std.specs.Prelude.{◌≡◌, ℕ, Bool};
ghost use Rattle.java_tree.specs.Seen.{Tokens};
ghost use Rattle.java_member_grammar.specs.Heads.{ConstantsSpell, ImportSpells, MemberSpells, PackageSpells, TypeHeadSpells};
ghost use Rattle.java_member_grammar.specs.declared.heads.JMemberHead.{JMemberHead};
ghost use Rattle.java_member_grammar.specs.declared.heads.JTypeHead.{JTypeHead};
ghost use Rattle.java_member_grammar.specs.declared.lines.JConstants.{JConstants};
ghost use Rattle.java_member_grammar.specs.declared.lines.JImport.{JImport};
ghost use Rattle.java_member_grammar.specs.declared.lines.JPackage.{JPackage};

/// Tokens before a block spell at most one head of a member, and so do tokens before a `;`.
pub fn one_member()
    ensures { (d e : ℕ) (has_body : Bool) (x y : JMemberHead) (text : Tokens) → MemberSpells d e has_body x text → MemberSpells d e has_body y text → x ≡ y }
{}

/// Tokens before the body of a type spell at most one head.
pub fn one_type_head()
    ensures { (d : ℕ) (x y : JTypeHead) (text : Tokens) → TypeHeadSpells d x text → TypeHeadSpells d y text → x ≡ y }
{}

/// Tokens spell the constants of an enum in at most one way.
pub fn one_constants()
    ensures { (d : ℕ) (x y : JConstants) (text : Tokens) → ConstantsSpell d x text → ConstantsSpell d y text → x ≡ y }
{}

/// Tokens spell at most one line of a package.
pub fn one_package()
    ensures { (x y : JPackage) (text : Tokens) → PackageSpells x text → PackageSpells y text → x ≡ y }
{}

/// Tokens spell at most one line of an import.
pub fn one_import()
    ensures { (x y : JImport) (text : Tokens) → ImportSpells x text → ImportSpells y text → x ≡ y }
{}
