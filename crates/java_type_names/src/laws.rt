//! What the scope of a file promises.

ghost use Rattle.std.specs.Prelude.{◌≡◌, ℕ, List};
ghost use Rattle.java_classes.specs.declared.rows.ClassRow.{ClassRow};
ghost use Rattle.java_type_names.specs.Scopes.{IsOnly, simple_class};
ghost use Rattle.java_type_names.specs.declared.classes.Meant.{Meant};
ghost use Rattle.java_type_names.specs.declared.scopes.FileScope.{FileScope};
ghost use Rattle.java_type_names.specs.declared.scopes.Found.TheVariants.{One};

/// A simple name means one class: the one that is imported by it; else that of the package; else the only one of the
/// packages that are imported on demand (JLS 6.4.1, 7.5).
pub fn one_class()
    ensures { (rows : List ClassRow) (scope : FileScope) (name : List ℕ) (class : Meant) → simple_class rows scope name ≡ One class → IsOnly rows scope name class }
{}
