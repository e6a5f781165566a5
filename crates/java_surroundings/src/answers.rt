// Members that a look-up by name found.
ghost use Rattle.std.specs.Prelude.{◌≡◌, ◌++◌, ◌∷◌, [], length, slice_get, IfOk, if◌then◌else◌};
ghost use Rattle.std.specs.List.{list_any};
ghost use Rattle.std.specs.Option.{option_copied};
ghost use Rattle.java_members.specs.Access as access;
ghost use Rattle.java_surroundings.specs.Surroundings as s;

use j2k_base::{Name, NoMemory};
use java_members::{Class, Found, Sort, is_accessible, members};
use java_scopes::Answer;
use java_supertypes::{ClassKind, Heading};
use java_type_names::Meant;
use std::alloc::Global;

fn answer_of(is_static: bool) -> Answer
    ensures { result ≡ s.answer_of is_static }
{
    if is_static {
        Answer::Static
    } else {
        Answer::Instance
    }
}

fn has_other(class: usize, xs: &[Found]) -> bool
    ensures { result ≡ list_any (s.is_of_other class) xs.now }
{
    xs.iter().any(|x| x.class != class)
}

fn has_static(xs: &[Found]) -> bool
    ensures { result ≡ list_any (λ x. x.is_static) xs.now }
{
    xs.iter().any(|x| x.is_static)
}

/// A field: fields of two classes are ambiguous.
pub(crate) fn field_answer(xs: &[Found]) -> Answer
    ensures { result ≡ s.field_answer xs.now }
{
    match xs {
        [] => Answer::Absent,
        [x, more @ ..] => {
            if has_other(x.class, more) {
                Answer::Several
            } else {
                answer_of(x.is_static)
            }
        }
    }
}

/// A method, which counts as static where one of them is.
pub(crate) fn method_answer(xs: &[Found]) -> Answer
    ensures { result ≡ s.method_answer xs.now }
{
    match xs {
        [] => Answer::Absent,
        _ => answer_of(has_static(xs)),
    }
}

fn push_seen(
    alloc: Global,
    out: &mut Vec<Found>,
    table: &[Class],
    own: usize,
    x: Found,
) -> Result<(), NoMemory>
    ensures { IfOk result (λ u. out.new.items ≡ out.old.items ++ (if access.is_accessible table.now (length table.now) own x.class x.access then x ∷ [] else [])) }
{
    if is_accessible(alloc, table, table.len(), own, x.class, x.access)? {
        out.push(x)?;
    }
    Ok(())
}

/// Those that may be named in a class (JLS 6.6).
pub(crate) fn seen(
    alloc: Global,
    table: &[Class],
    own: usize,
    xs: &[Found],
) -> Result<Vec<Found>, NoMemory>
    ensures { IfOk result (λ out. out.items ≡ s.seen table.now own xs.now) }
{
    let mut out = Vec::new(alloc);
    for x in xs {
        push_seen(alloc, &mut out, table, own, *x)?;
    }
    Ok(out)
}

pub(crate) fn fields_of(
    alloc: Global,
    table: &[Class],
    name: &Name,
    class: usize,
) -> Result<Vec<Found>, NoMemory>
    ensures { IfOk result (λ out. out.items ≡ s.fields_of table.now name.now class) }
{
    members(alloc, table, table.len(), Sort::Field, name.as_str(), class)
}

pub(crate) fn methods_of(
    alloc: Global,
    table: &[Class],
    name: &Name,
    class: usize,
) -> Result<Vec<Found>, NoMemory>
    ensures { IfOk result (λ out. out.items ≡ s.methods_of table.now name.now class) }
{
    members(
        alloc,
        table,
        table.len(),
        Sort::Method,
        name.as_str(),
        class,
    )
}

fn is_class(class: Option<&Class>) -> bool
    ensures { result ≡ s.is_class (option_copied class.entry) }
{
    match class {
        None => false,
        Some(class) => !class.is_interface,
    }
}

fn is_class_at(table: &[Class], number: usize) -> bool
    ensures { result ≡ s.is_class (slice_get table.now number) }
{
    is_class(table.get(number))
}

fn first_class(table: &[Class], xs: &[usize]) -> Option<usize>
    ensures { result ≡ s.first_class table.now xs.now }
{
    match xs {
        [] => None,
        [x, more @ ..] => {
            if is_class_at(table, *x) {
                Some(*x)
            } else {
                first_class(table, more)
            }
        }
    }
}

fn superclass(table: &[Class], class: Option<&Class>) -> Option<usize>
    ensures { result ≡ s.superclass table.now (option_copied class.entry) }
{
    match class {
        None => None,
        Some(class) => {
            if class.is_interface {
                None
            } else {
                first_class(table, class.above.as_slice())
            }
        }
    }
}

/// The superclass of a class (JLS 8.1.4).
pub(crate) fn superclass_of(table: &[Class], number: usize) -> Option<usize>
    ensures { result ≡ s.superclass table.now (slice_get table.now number) }
{
    superclass(table, table.get(number))
}

pub(crate) fn super_found(
    alloc: Global,
    table: &[Class],
    name: &Name,
    class: Option<usize>,
) -> Result<Vec<Found>, NoMemory>
    ensures { IfOk result (λ out. out.items ≡ s.super_found table.now name.now class) }
{
    match class {
        None => Ok(Vec::new(alloc)),
        Some(class) => methods_of(alloc, table, name, class),
    }
}

fn is_enum(heading: Option<&Heading>) -> bool
    ensures { result ≡ s.is_enum (option_copied heading.entry) }
{
    match heading {
        None => false,
        Some(heading) => heading.kind == ClassKind::Enum,
    }
}

fn is_enum_at(headings: &[Heading], number: usize) -> bool
    ensures { result ≡ s.is_enum (slice_get headings.now number) }
{
    is_enum(headings.get(number))
}

/// Whether nothing is known of the members of a class: an enum isn't built yet.
pub(crate) fn is_open(headings: &[Heading], class: Meant) -> bool
    ensures { result ≡ s.is_open headings.now class }
{
    match class {
        Meant::Project(number) => is_enum_at(headings, number),
        Meant::Library(_) => false,
    }
}
