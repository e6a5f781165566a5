//! Laws of the library's table.

ghost use Rattle.std.specs.Prelude.{◌≡◌, ◌↔◌, ◌<◌, ℕ, false, List, Some, None, length, get_or, slice_get};
ghost use Rattle.java_lib.specs.Library.{Member, object_class, classes, members};
ghost use Rattle.java_lib.specs.Classes.{above_of, climbed};
ghost use Rattle.java_lib.specs.Members.{same_member};

/// What stands above a class is a class, Object alone has nothing above it, and each class is under Object.
pub fn superclasses()
    ensures stands { (class above : ℕ) → above_of class ≡ Some above → above < length classes }
    ensures topmost { (class : ℕ) → class < length classes → (above_of class ≡ None) ↔ (class ≡ object_class) }
    ensures chain { (class : ℕ) → class < length classes → climbed (length classes) class ≡ object_class }
{}

/// Each class has a list of members, and no two of its members have one name and the same types of parameters.
pub fn members_of_classes()
    ensures each { length members ≡ length classes }
    ensures differ { (class : ℕ) (rows : List Member) → slice_get members class ≡ Some rows → (i j : ℕ) (d : Member) → i < j → j < length rows → same_member (get_or rows i d) (get_or rows j d) ≡ false }
{}
