//! What names of bodies mean.

ghost use Rattle.std.specs.Prelude.{◌≡◌, [], ℕ, List};
ghost use Rattle.java_tree.specs.declared.tokens.Position.{Position};
ghost use Rattle.java_name_meanings.specs.Extents.{IsInScope};
ghost use Rattle.java_name_meanings.specs.Meanings.{AllMeant};
ghost use Rattle.java_name_uses.specs.declared.uses.Use.{Use};
ghost use Rattle.java_scopes.specs.Locals.{IsIn};
ghost use Rattle.java_scopes.specs.Scopes.{Setting, faults_of, first, run};

use java_scopes::locals_are_apart;

/// Where a body has no fault, each of its names has a meaning where it stands, each jump has its target, and each variable and label is
/// new in its scope (JLS 6.4, 6.5, 14.7, 14.15 to 14.17).
pub fn names_have_meanings()
    ensures { (g : Setting) (xs : List Use) → faults_of g xs ≡ [] → AllMeant g first xs }
{}

/// A name that means a local stands in the scope of the local's declaration (JLS 6.3).
pub fn locals_are_in_scope()
    ensures { (g : Setting) (xs : List Use) (name : List ℕ) (at : Position) → IsIn (name, at) (run g first xs).locals → IsInScope name at xs }
{}

/// Where a body has no fault, a local is meant wherever its scope is, and no place is in the scope of two locals of one name
/// (JLS 6.3, 6.4).
pub fn scopes_are_found()
    ensures found { (g : Setting) (xs : List Use) (name : List ℕ) (at : Position) → faults_of g xs ≡ [] → IsInScope name at xs → IsIn (name, at) (run g first xs).locals }
    ensures one { (g : Setting) (xs : List Use) (name : List ℕ) (at other : Position) → faults_of g xs ≡ [] → IsInScope name at xs → IsInScope name other xs → at ≡ other }
{
    locals_are_apart();
}
