//! What is derived of what is printed.

ghost use Rattle.std.specs.Prelude.{◌≡◌, true, List, map};
ghost use Rattle.kotlin_tree.specs.declared.types.KType.{KType};
ghost use Rattle.kotlin_tree.specs.declared.expressions.KExpr.{KExpr};
ghost use Rattle.kotlin_tree.specs.declared.statements.KStmt.{KStmt};
ghost use Rattle.kotlin_tree.specs.declared.files.KClass.{KClass};
ghost use Rattle.kotlin_tree.specs.declared.files.KFile.{KFile};
ghost use Rattle.kotlin_tree.specs.declared.tokens.Gap.TheVariants as gap;
ghost use Rattle.kotlin_grammar.specs.Reading.{SpellsClass, SpellsHead};
ghost use Rattle.kotlin_grammar.specs.Files.{begun};
ghost use Rattle.kotlin_canonical_text.specs.Tokens.{tokens};
ghost use Rattle.kotlin_canonical_text.specs.Members.{class_tree, class_readable, bare_class_roles};
ghost use Rattle.kotlin_canonical_text.specs.Heads.{head_tree, first_readable, head_roles};
ghost use Rattle.kotlin_layout.specs.Roles.{block};
ghost use Rattle.kotlin_layout.specs.Parens.{free_place};
ghost use Rattle.kotlin_layout.specs.Shown.{type_roles, expression_roles, statement_roles};
ghost use Rattle.kotlin_grammar.specs.declared.letters.Form.TheVariants as f;
ghost use Rattle.kotlin_canonical_text.specs.Canonical.{type_piece, operand, statement, block_readable};
ghost use Rattle.kotlin_canonical_text.specs.Derived.{Derives, type_built, expression_built, block_built};

/// The tokens of the canonical text of a type are a type of the grammar, which builds its canonical tree.
pub fn type_is_derived()
    ensures { (x : KType) → (type_piece x).readable ≡ true → Derives f.Type (type_roles x) (type_built x) }
{}

/// The tokens of the canonical text of an expression are an expression of the grammar, which builds its canonical tree.
pub fn expression_is_derived()
    ensures { (x : KExpr) → (operand x).readable free_place ≡ true → Derives f.Expr (expression_roles x free_place) (expression_built x) }
{}

/// The tokens of the canonical text of a block are a block of the grammar, which builds its canonical tree.
pub fn block_is_derived()
    ensures { (xs : List KStmt) → block_readable (map statement xs) ≡ true → Derives f.Block (block (map statement_roles xs)) (block_built xs) }
{}

/// The tokens of the canonical text of a class, without the comments before it, spell its canonical tree.
pub fn class_is_spelled()
    ensures { (x : KClass) → class_readable x ≡ true → SpellsClass (class_tree x) (tokens gap.Plain (bare_class_roles x)) }
{}

/// The tokens of the canonical text of a file as far as its first class spell the canonical tree of that.
pub fn head_is_spelled()
    ensures { (x : KFile) → first_readable x.classes ≡ true → SpellsHead (head_tree x) (begun (tokens gap.Plain (head_roles x))) }
{}
