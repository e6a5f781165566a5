//! What the tables of classes tell, by the declarations of a project.

ghost use Rattle.std.specs.List.{enumerate_from};
ghost use Rattle.std.specs.Prelude.{◌+◌, ◌++◌, ◌<◌, ◌≡◌, ℕ, List, Some, length, map, slice_get};
ghost use Rattle.java_class_names.specs.Places.{class_places};
ghost use Rattle.java_class_numbers.specs.Declarations.{Declaration, StandsIn, declarations};
ghost use Rattle.java_class_numbers.specs.Numbers.{AreScopes, IsClass, class_of, heading_of, place_of, row_of};
ghost use Rattle.java_classes.specs.Classes.{class_rows};
ghost use Rattle.java_member_tables.specs.Library.{library_classes};
ghost use Rattle.java_member_tables.specs.Tables.{class_table};
ghost use Rattle.java_supertypes.specs.Supertypes.{headings};
ghost use Rattle.java_supertypes.specs.declared.heads.Heading.{Heading};
ghost use Rattle.java_type_names.specs.declared.classes.World.{World};
ghost use Rattle.java_type_names.specs.declared.scopes.FileScope.{FileScope};
ghost use Rattle.java_unit_grammar.specs.declared.units.JUnit.{JUnit};

/// Each declaration stands where it says (JLS 7.3, 7.6), and each class that stands in a file is among the declarations.
pub fn declarations_stand()
    ensures stand { (units : List JUnit) (number : ℕ) (x : Declaration) → slice_get (declarations units) number ≡ Some x → StandsIn units x }
    ensures all { (units : List JUnit) (x : Declaration) → StandsIn units x → (number : ℕ) × (slice_get (declarations units) number ≡ Some x) }
{}

/// The rows of the classes are those of the declarations, in their order.
pub fn rows_are()
    ensures { (units : List JUnit) → class_rows units ≡ map row_of (declarations units) }
{}

/// The places of the classes are those of the declarations, in their order.
pub fn places_are()
    ensures { (units : List JUnit) → class_places units ≡ map place_of (declarations units) }
{}

/// The headings of the classes are those of the declarations, each in the scope of its file.
pub fn headings_are()
    ensures { (world : World) (scopes : List FileScope) (units : List JUnit) → AreScopes world scopes units → headings world scopes units ≡ map (heading_of world) (declarations units) }
{}

/// The table of members has the project's classes by their numbers, and behind them those of the library.
pub fn table_is()
    ensures { (hs : List Heading) (units : List JUnit) → class_table hs units ≡ map (class_of hs) (enumerate_from 0 (declarations units)) ++ library_classes (length hs) }
{}

/// As many rows, places and headings as declarations, and so many classes of the project in the table.
pub fn one_order()
    ensures rows { (units : List JUnit) → length (class_rows units) ≡ length (declarations units) }
    ensures places { (units : List JUnit) → length (class_places units) ≡ length (declarations units) }
    ensures headings { (world : World) (scopes : List FileScope) (units : List JUnit) → AreScopes world scopes units → length (headings world scopes units) ≡ length (declarations units) }
    ensures table { (hs : List Heading) (units : List JUnit) → length (class_table hs units) ≡ length (declarations units) + length (library_classes (length hs)) }
{}

/// Under each number below the count of classes, the row, the place, the heading and the members are of one declaration, and of no
/// other.
pub fn one_class()
    ensures some { (world : World) (scopes : List FileScope) (units : List JUnit) (number : ℕ) → AreScopes world scopes units → number < length (class_rows units) → (x : Declaration) × IsClass world scopes units number x }
    ensures one { (world : World) (scopes : List FileScope) (units : List JUnit) (number : ℕ) (x y : Declaration) → IsClass world scopes units number x → IsClass world scopes units number y → x ≡ y }
{}
