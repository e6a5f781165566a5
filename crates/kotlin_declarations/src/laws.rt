//! What the rules of declarations promise.

ghost use Rattle.std.specs.Prelude.{◌≡◌, ◌∷◌, ◌++◌, ℕ, Bool, true, false, [], List};
ghost use Rattle.judged.specs.Notes.{faults_in};
ghost use Rattle.kotlin_tree.specs.declared.places.Position.{Position};
ghost use Rattle.kotlin_tree.specs.declared.files.KFile.{KFile};
ghost use Rattle.kotlin_types.specs.declared.kinds.KKind.{KKind};
ghost use Rattle.kotlin_typing.specs.declared.tables.KCallable.{KCallable};
ghost use Rattle.kotlin_typing.specs.declared.tables.KTables.{KTables};
ghost use Rattle.kotlin_project.specs.Declared.{Numbered};
ghost use Rattle.kotlin_project.specs.Members.{Function};
ghost use Rattle.kotlin_project.specs.Tables.{Library};
ghost use Rattle.kotlin_declarations.specs.Overrides.{Overrides, OverridesAll, override_notes, overridden};
ghost use Rattle.kotlin_declarations.specs.Heads.{cycle_notes, is_above_itself};
ghost use Rattle.kotlin_declarations.specs.Classes.{abstract_notes, accessors_notes, class_notes, head_notes, leaves_open, open_notes, own_notes, twice_notes};

/// Where nothing is noted, what is overridden is open, and the result of an override stands below.
pub fn overrides_narrow()
    ensures all { (w : KTables) (path : List ℕ) (at : Position) (m : KCallable) (above : List Function) → faults_in (override_notes w path at m true above) ≡ [] → OverridesAll w m (overridden m above) }
    ensures none { (w : KTables) (path : List ℕ) (at : Position) (m : KCallable) (above : List Function) → faults_in (override_notes w path at m false above) ≡ [] → overridden m above ≡ [] }
{}

/// A class of which instances are made leaves no function abstract.
pub fn nothing_is_left_abstract()
    ensures { (path : List ℕ) (at : Position) (all : List Function) → faults_in (open_notes path at false all) ≡ [] → leaves_open all ≡ false }
{}

/// No class is above itself.
pub fn no_class_is_above_itself()
    ensures { (w : KTables) (path : List ℕ) (at : Position) (x : KKind) → faults_in (cycle_notes w path at x) ≡ [] → is_above_itself w x ≡ false }
{}

/// Where nothing is noted of the declarations of a class, nothing is of its head, of what is abstract, of its members and accessors.
pub fn classes_are_declared()
    ensures head { (library : Library) (files : List KFile) (n : Numbered) → faults_in (class_notes library files n) ≡ [] → faults_in (head_notes library files n) ≡ [] }
    ensures abstracts { (library : Library) (files : List KFile) (n : Numbered) → faults_in (class_notes library files n) ≡ [] → faults_in (abstract_notes library files n) ≡ [] }
    ensures members { (library : Library) (files : List KFile) (n : Numbered) → faults_in (class_notes library files n) ≡ [] → faults_in (own_notes library files n) ≡ [] }
    ensures twice { (library : Library) (files : List KFile) (n : Numbered) → faults_in (class_notes library files n) ≡ [] → faults_in (twice_notes library files n) ≡ [] }
    ensures accessors { (library : Library) (files : List KFile) (n : Numbered) → faults_in (class_notes library files n) ≡ [] → faults_in (accessors_notes library files n) ≡ [] }
{}
