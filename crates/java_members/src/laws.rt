//! What the members of classes promise.

ghost use Rattle.std.specs.Prelude.{◌≡◌, ◌≤◌, ℕ, List, true};
ghost use Rattle.java_members.specs.Access.{IsAccessible, is_accessible};
ghost use Rattle.java_members.specs.Members.{HasMember, IsIn, found, members};
ghost use Rattle.java_members.specs.declared.classes.Access.{Access};
ghost use Rattle.java_members.specs.declared.classes.Access.TheVariants.{Private};
ghost use Rattle.java_members.specs.declared.classes.Class.{Class};
ghost use Rattle.java_members.specs.declared.classes.Member.{Member};
ghost use Rattle.java_members.specs.declared.classes.Sort.{Sort};
ghost use Rattle.java_members.specs.declared.inheritance.Found.{Found};

/// What is found is a member of the class, which it declares or inherits; and each member over at most so many steps is found
/// (JLS 8.2, 8.3, 8.4.8, 9.2).
pub fn members_are_found()
    ensures sound { (table : List Class) (sort : Sort) (name : List ℕ) (steps a : ℕ) (x : Found) → IsIn x (members table sort name steps a) → (k : ℕ) × (member : Member) × HasMember table sort name k a x.class member × (x ≡ found x.class member) }
    ensures complete { (table : List Class) (sort : Sort) (name : List ℕ) (steps k a c : ℕ) (member : Member) → HasMember table sort name k a c member → k ≤ steps → IsIn (found c member) (members table sort name steps a) }
{}

/// A member may be named in the class that has it, be it declared there or inherited (JLS 6.6.1, 8.2).
pub fn inherited_are_accessible()
    ensures { (table : List Class) (sort : Sort) (name : List ℕ) (k a c : ℕ) (member : Member) → HasMember table sort name k a c member → IsAccessible table a c member.access }
{}

/// A private member is one of the class that declares it alone (JLS 6.6.1, 8.2).
pub fn private_members()
    ensures { (table : List Class) (sort : Sort) (name : List ℕ) (k a c : ℕ) (member : Member) → HasMember table sort name k a c member → member.access ≡ Private → a ≡ c }
{}

/// What is found to be accessible may be named (JLS 6.6.1, 6.6.2).
pub fn what_is_accessible()
    ensures { (table : List Class) (steps a c : ℕ) (x : Access) → is_accessible table steps a c x ≡ true → IsAccessible table a c x }
{}
