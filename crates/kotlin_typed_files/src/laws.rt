//! What the typing of files promises.

ghost use Rattle.std.specs.Prelude.{◌≡◌, ◌⊎◌, [], List};
ghost use Rattle.j2k_base.specs.declared.places.Fault.{Fault};
ghost use Rattle.judged.specs.Notes.{AreSame, faults_in};
ghost use Rattle.kotlin_tree.specs.declared.files.KFile.{KFile};
ghost use Rattle.kotlin_flow.specs.Files.{class_faults};
ghost use Rattle.kotlin_project.specs.Declared.{Numbered, declared, numbered};
ghost use Rattle.kotlin_project.specs.Tables.{Library};
ghost use Rattle.kotlin_project.specs.Twice.{AreApart, IsIn};
ghost use Rattle.kotlin_declarations.specs.Classes.{class_notes};
ghost use Rattle.kotlin_typed_files.specs.TypedFiles.{IsFirstFault, IsWellTyped, bodies_notes, imports_notes};

/// Files are well typed or have a first fault, never both, and two first faults are of one code at one place.
pub fn files_are_judged()
    ensures either { (library : Library) (files : List KFile) → IsWellTyped library files ⊎ ((fault : Fault) × IsFirstFault library files fault) }
    ensures never_both { (library : Library) (files : List KFile) (fault : Fault) → IsWellTyped library files → IsFirstFault library files fault → ⊥ }
    ensures one { (library : Library) (files : List KFile) (a b : Fault) → IsFirstFault library files a → IsFirstFault library files b → AreSame a b }
{}

/// In well typed files no two classes have one name, and of each class the bodies, the flow and the declarations have no fault.
pub fn well_typed_files()
    ensures apart { (library : Library) (files : List KFile) → IsWellTyped library files → AreApart [] (declared files) }
    ensures imports { (library : Library) (files : List KFile) → IsWellTyped library files → faults_in (imports_notes library files files) ≡ [] }
    ensures bodies { (library : Library) (files : List KFile) (n : Numbered) → IsIn n (numbered files) → IsWellTyped library files → faults_in (bodies_notes library files n) ≡ [] }
    ensures flow { (library : Library) (files : List KFile) (n : Numbered) → IsIn n (numbered files) → IsWellTyped library files → class_faults n.is.class ≡ [] }
    ensures declarations { (library : Library) (files : List KFile) (n : Numbered) → IsIn n (numbered files) → IsWellTyped library files → faults_in (class_notes library files n) ≡ [] }
{}
