//! What the tables of a project promise.

ghost use Rattle.std.specs.Prelude.{◌≡◌, ◌↔◌, true, [], List, Option, Some};
ghost use Rattle.judged.specs.Notes.{faults_in};
ghost use Rattle.kotlin_tree.specs.declared.types.KType.{KType};
ghost use Rattle.kotlin_tree.specs.declared.files.KFile.{KFile};
ghost use Rattle.kotlin_types.specs.declared.kinds.KKind.{KKind};
ghost use Rattle.kotlin_types.specs.Supertypes.{class_head};
ghost use Rattle.kotlin_typing.specs.declared.tables.KTables.{KTables};
ghost use Rattle.kotlin_typing.specs.Written.{Path, meant, same_path};
ghost use Rattle.kotlin_project.specs.Named.{named};
ghost use Rattle.kotlin_project.specs.Declared.{Declared, Numbered, called, declared, full_name, numbered, ref};
ghost use Rattle.kotlin_project.specs.Members.{Function};
ghost use Rattle.kotlin_project.specs.Tables.{Library, classes, functions, functions_in, head_at};
ghost use Rattle.kotlin_project.specs.Twice.{AreApart, IsIn, twice_from};

/// A type of a declaration is in the tables what the checker gives for it.
pub fn types_are_meant()
    ensures { (w : KTables) (x : KType) (k : KKind) → meant w x ≡ Some k → named w x ≡ Some k }
{}

/// The head of each class is found by its number.
pub fn classes_are_found()
    ensures { (library : Library) (files : List KFile) (n : Numbered) → IsIn n (numbered files) → class_head (classes library files) (ref n) ≡ Some (head_at library files n) }
{}

/// Each declared class is found by its name, and what is found is declared and has that name.
pub fn names_are_found()
    ensures found { (files : List KFile) (n : Numbered) → IsIn n (numbered files) → (m : Numbered) × (called (numbered files) (full_name n.is) ≡ Some m) }
    ensures declared { (files : List KFile) (path : Path) (m : Numbered) → called (numbered files) path ≡ Some m → IsIn m (numbered files) × (same_path (full_name m.is) path ≡ true) }
{}

/// What a class declares as a function stands in the tables.
pub fn functions_are_found()
    ensures { (library : Library) (files : List KFile) (n : Numbered) (f : Function) → IsIn n (numbered files) → IsIn f (functions_in library files n) → IsIn f (functions library files) }
{}

/// Nothing is noted of the names of classes exactly where no two have one.
pub fn no_two_have_one_name()
    ensures { (ds : List Declared) → (faults_in (twice_from [] ds) ≡ []) ↔ AreApart [] ds }
{}
