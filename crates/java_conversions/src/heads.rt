// Look-ups of what is declared of classes.
ghost use Rattle.std.specs.Prelude.{◌≡◌};
ghost use Rattle.std.specs.Option.{option_copied};
ghost use Rattle.java_type_relations.specs.Heads as s;

use java_type_relations::{ClassForm, Head, Heads};
use java_typed::{ClassRef, TType};
use sqlite_items::at;

/// The head of a class; None where the number is that of no row. It takes no memory.
pub fn head_of(heads: &Heads, class: ClassRef) -> Option<&Head>
    ensures { option_copied result ≡ s.head_of heads.now class }
{
    match class {
        ClassRef::Library(number) => at(heads.library.as_slice(), number as usize),
        ClassRef::Project(number) => at(heads.project.as_slice(), number as usize),
    }
}

/// The direct supertypes of a class, written with its own type parameters; none where it has no row.
pub fn supers_in(heads: &Heads, class: ClassRef) -> &[TType]
    ensures { result.now ≡ s.supers_in heads.now class }
{
    match head_of(heads, class) {
        Some(head) => head.supers.as_slice(),
        None => &[],
    }
}

/// The bound of a type parameter, by the class that declares it and its place there.
pub fn bound_in(heads: &Heads, class: ClassRef, place: u32) -> Option<&TType>
    ensures { option_copied result ≡ s.bound_in heads.now class place }
{
    match head_of(heads, class) {
        Some(head) => at(head.bounds.as_slice(), place as usize),
        None => None,
    }
}

/// The form of a class, and `Class` where it has no row.
pub fn form_in(heads: &Heads, class: ClassRef) -> ClassForm
    ensures { result ≡ s.form_in heads.now class }
{
    match head_of(heads, class) {
        Some(head) => head.form,
        None => ClassForm::Class,
    }
}
