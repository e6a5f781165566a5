//! What equality up to places and the canonical text promise.

ghost use Rattle.std.specs.Prelude.{◌≡◌, ◌≤◌, Bool, true, false};
ghost use Rattle.kotlin_tree.specs.declared.places.Brackets.{Brackets};
ghost use Rattle.kotlin_tree.specs.declared.expressions.KExpr.{KExpr};
ghost use Rattle.kotlin_tree.specs.declared.expressions.KExpr.TheVariants as e;
ghost use Rattle.kotlin_tree.specs.declared.files.KFile.{KFile};
ghost use Rattle.kotlin_tree.specs.UpToPlaces.{SameUpToPlaces};
ghost use Rattle.kotlin_layout.specs.declared.parens.Place.{Place};
ghost use Rattle.kotlin_layout.specs.Parens.{free_place, needs_parens, postfix_level};
ghost use Rattle.kotlin_layout.specs.Shown.{bare_roles, expression_roles, in_round};
ghost use Rattle.kotlin_layout.specs.Text.{KText};
ghost use Rattle.kotlin_text_laws.specs.Uncommented.{uncommented_file};

/// Each file is equal to itself up to places.
pub fn same_as_itself()
    ensures { (x : KFile) → SameUpToPlaces x x }
{}

/// Equality up to places goes both ways.
pub fn same_both_ways()
    ensures { (x y : KFile) → SameUpToPlaces x y → SameUpToPlaces y x }
{}

/// What is equal up to places to the same file is equal up to places.
pub fn same_as_the_same()
    ensures { (x y z : KFile) → SameUpToPlaces x y → SameUpToPlaces y z → SameUpToPlaces x z }
{}

/// A file is equal up to places to itself without its comments.
pub fn comments_are_beside()
    ensures { (x : KFile) → SameUpToPlaces (uncommented_file x) x }
{}

/// Files that are equal up to places have one text, but for their comments.
pub fn one_text()
    ensures { (x y : KFile) → SameUpToPlaces x y → KText (uncommented_file x) ≡ KText (uncommented_file y) }
{}

/// Files without comments, as those that were read, have one text where they are equal up to places.
pub fn one_text_without_comments()
    ensures { (x y : KFile) → uncommented_file x ≡ x → uncommented_file y ≡ y → SameUpToPlaces x y → KText x ≡ KText y }
{}

/// Where no parentheses are missing, an expression is laid out as it is.
pub fn as_it_is()
    ensures { (x : KExpr) (p : Place) → needs_parens p x ≡ false → expression_roles x p ≡ bare_roles p x }
{}

/// Where they are missing, parentheses are added, and within them everything stands as it is.
pub fn in_parentheses()
    ensures { (x : KExpr) (p : Place) → needs_parens p x ≡ true → expression_roles x p ≡ in_round (bare_roles free_place x) }
{}

/// Behind an opening bracket, `=` or a word no parentheses are missing.
pub fn none_missing_where_free()
    ensures { (x : KExpr) → needs_parens free_place x ≡ false }
{}

/// None are missing around an expression in parentheses.
pub fn none_missing_around_parentheses()
    ensures { (round : Brackets) (x : KExpr) (p : Place) → p.level ≤ postfix_level → needs_parens p (e.Paren round x) ≡ false }
{}
