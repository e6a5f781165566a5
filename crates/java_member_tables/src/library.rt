// The classes of the library.
ghost use Rattle.std.specs.Prelude.{◌≡◌, ◌<◌, ◌+◌, ◌++◌, ◌∷◌, [], map, length, IfOk, if◌then◌else◌};
ghost use Rattle.std.specs.List.{filter};
ghost use Rattle.std.specs.Option.{option_copied, option_map};
ghost use Rattle.java_lib.specs.Classes.{class_named, class_of};
ghost use Rattle.java_lib.specs.Library.{classes, members};
ghost use Rattle.java_lib.specs.Members.{member_of};
ghost use Rattle.java_member_tables.specs.Library as s;

use j2k_base::{Name, NoMemory, Text};
use java_lib::{ClassRow, Form, MemberRow, class_row, member_rows};
use java_members::{Access, Class, Declared, Member};
use sqlite_items::Items;
use std::alloc::Global;

fn is_field(form: Form) -> bool
    ensures { result ≡ s.is_field form }
{
    form == Form::Constant
}

fn is_method(form: Form) -> bool
    ensures { result ≡ s.is_method form }
{
    match form {
        Form::Method | Form::Property | Form::Static | Form::Receiver | Form::Barred => true,
        Form::Create | Form::Constant | Form::Function | Form::Input => false,
    }
}

fn is_static(form: Form) -> bool
    ensures { result ≡ s.is_static form }
{
    match form {
        Form::Static | Form::Constant => true,
        _ => false,
    }
}

fn push_static(alloc: Global, out: &mut Items<Member>, name: &str) -> Result<(), NoMemory>
    ensures { IfOk result (λ u. out.new ≡ out.old ++ (s.static_field name.now ∷ [])) }
{
    let name = Name::from_str(alloc, name)?;
    out.push(Member {
        name,
        access: Access::Public,
        is_static: true,
    })?;
    Ok(())
}

fn push_row(alloc: Global, out: &mut Items<Member>, row: &MemberRow) -> Result<(), NoMemory>
    ensures { IfOk result (λ u. out.new ≡ out.old ++ (s.member (member_of row.now) ∷ [])) }
{
    let name = Name::from_str(alloc, row.java)?;
    out.push(Member {
        name,
        access: Access::Public,
        is_static: is_static(row.form),
    })?;
    Ok(())
}

fn push_if(
    alloc: Global,
    out: &mut Items<Member>,
    is: bool,
    row: &MemberRow,
) -> Result<(), NoMemory>
    ensures { IfOk result (λ u. out.new ≡ out.old ++ (if is then s.member (member_of row.now) ∷ [] else [])) }
{
    if is {
        push_row(alloc, out, row)
    } else {
        Ok(())
    }
}

fn push_fields(alloc: Global, out: &mut Items<Member>, rows: &[MemberRow]) -> Result<(), NoMemory>
    ensures { IfOk result (λ u. out.new ≡ out.old ++ map s.member (filter (λ row. s.is_field row.form) (map member_of rows.now))) }
{
    for row in rows {
        push_if(alloc, out, is_field(row.form), row)?;
    }
    Ok(())
}

fn push_methods(alloc: Global, out: &mut Items<Member>, rows: &[MemberRow]) -> Result<(), NoMemory>
    ensures { IfOk result (λ u. out.new ≡ out.old ++ s.methods (map member_of rows.now)) }
{
    for row in rows {
        push_if(alloc, out, is_method(row.form), row)?;
    }
    Ok(())
}

/// The number of System in the library.
const SYSTEM: u8 = 16;

fn push_besides(alloc: Global, out: &mut Items<Member>, number: u8) -> Result<(), NoMemory>
    ensures { IfOk result (λ u. out.new ≡ out.old ++ s.fields_besides number) }
{
    if number == SYSTEM {
        push_static(alloc, out, "out")?;
        push_static(alloc, out, "in")?;
    }
    Ok(())
}

fn fields_of(alloc: Global, number: u8, rows: &[MemberRow]) -> Result<Items<Member>, NoMemory>
    ensures { IfOk result (λ out. out ≡ s.fields number (map member_of rows.now)) }
{
    let mut out = Items::new(alloc);
    push_fields(alloc, &mut out, rows)?;
    push_besides(alloc, &mut out, number)?;
    Ok(out)
}

fn methods_of(alloc: Global, rows: &[MemberRow]) -> Result<Items<Member>, NoMemory>
    ensures { IfOk result (λ out. out ≡ s.methods (map member_of rows.now)) }
{
    let mut out = Items::new(alloc);
    push_methods(alloc, &mut out, rows)?;
    Ok(out)
}

fn is_interface(number: u8) -> bool
    ensures { result ≡ s.is_interface number }
{
    number == 12 || number == 13 || number == 14
}

const THREAD: u8 = 15;

const RUNNABLE: u8 = 14;

fn push_above(out: &mut Items<usize>, count: usize, above: Option<u8>) -> Result<(), NoMemory>
    requires { count < 9223372036854775808 }
    ensures { IfOk result (λ u. out.new ≡ out.old ++ map (λ n. count + n) (s.above_by above)) }
{
    if let Some(above) = above {
        out.push(count + above as usize)?;
    }
    Ok(())
}

fn push_above_besides(out: &mut Items<usize>, count: usize, number: u8) -> Result<(), NoMemory>
    requires { count < 9223372036854775808 }
    ensures { IfOk result (λ u. out.new ≡ out.old ++ map (λ n. count + n) (s.above_besides number)) }
{
    if number == THREAD {
        out.push(count + RUNNABLE as usize)?;
    }
    Ok(())
}

fn above_of(alloc: Global, count: usize, row: &ClassRow) -> Result<Items<usize>, NoMemory>
    requires { count < 9223372036854775808 }
    ensures { IfOk result (λ out. out ≡ map (λ n. count + n) (s.above_by row.now.above ++ s.above_besides row.now.number)) }
{
    let mut out = Items::new(alloc);
    push_above(&mut out, count, row.above)?;
    push_above_besides(&mut out, count, row.number)?;
    Ok(out)
}

fn library_fields(alloc: Global, number: u8) -> Result<Declared, NoMemory>
    requires { number < length members }
    ensures { IfOk result (λ out. out ≡ s.fields number (s.rows_of number)) }
{
    let fields = fields_of(alloc, number, member_rows(number))?;
    Declared::new(alloc, fields)
}

fn library_methods(alloc: Global, number: u8) -> Result<Declared, NoMemory>
    requires { number < length members }
    ensures { IfOk result (λ out. out ≡ s.methods (s.rows_of number)) }
{
    let methods = methods_of(alloc, member_rows(number))?;
    Declared::new(alloc, methods)
}

fn class(alloc: Global, count: usize, row: &ClassRow) -> Result<Class, NoMemory>
    requires count { count < 9223372036854775808 }
    requires number { row.now.number < length members }
    ensures { IfOk result (λ class. class ≡ s.class count (class_of row.now)) }
{
    let home = Text::from_str(alloc, row.package)?;
    let above = above_of(alloc, count, row)?;
    let fields = library_fields(alloc, row.number)?;
    let methods = library_methods(alloc, row.number)?;
    Ok(Class {
        home,
        is_interface: is_interface(row.number),
        above,
        fields,
        methods,
    })
}

fn push_class(
    alloc: Global,
    out: &mut Items<Class>,
    count: usize,
    name: &str,
) -> Result<(), NoMemory>
    requires { count < 9223372036854775808 }
    ensures { IfOk result (λ u. out.new ≡ out.old ++ s.if_class count (class_named name.now classes)) }
{
    match class_row(name.as_bytes()) {
        None => Ok(()),
        Some(row) => {
            out.push(class(alloc, count, row)?)?;
            Ok(())
        }
    }
}

static NAMES: [&str; 37] = [
    "Object",
    "String",
    "StringBuilder",
    "Integer",
    "Long",
    "Short",
    "Byte",
    "Character",
    "Boolean",
    "Math",
    "ArrayList",
    "HashMap",
    "List",
    "Map",
    "Runnable",
    "Thread",
    "System",
    "Throwable",
    "Exception",
    "Error",
    "RuntimeException",
    "InterruptedException",
    "IOException",
    "ArithmeticException",
    "ClassCastException",
    "IllegalArgumentException",
    "IllegalStateException",
    "IndexOutOfBoundsException",
    "NegativeArraySizeException",
    "NullPointerException",
    "ConcurrentModificationException",
    "NumberFormatException",
    "IllegalThreadStateException",
    "ArrayIndexOutOfBoundsException",
    "StringIndexOutOfBoundsException",
    "ExceptionInInitializerError",
    "NoClassDefFoundError",
];

/// The names of the library's classes, in the order of their numbers.
fn names() -> &'static [&'static str]
    ensures { map (λ name. name.now) result.now ≡ s.library_names }
{
    &NAMES
}

fn push_classes(
    alloc: Global,
    out: &mut Items<Class>,
    count: usize,
    names: &[&str],
) -> Result<(), NoMemory>
    requires { count < 9223372036854775808 }
    ensures { IfOk result (λ u. out.new ≡ out.old ++ s.classes_named count (map (λ name. name.now) names.now)) }
{
    for name in names {
        push_class(alloc, out, count, name)?;
    }
    Ok(())
}

/// The classes of the library, behind so many of the project.
#[tactic(auto, using(crate::proofs::Names::all_named))]
pub(crate) fn push_library(
    alloc: Global,
    out: &mut Items<Class>,
    count: usize,
) -> Result<(), NoMemory>
    requires { count < 9223372036854775808 }
    ensures { IfOk result (λ u. out.new ≡ out.old ++ s.library_classes count) }
{
    push_classes(alloc, out, count, names())
}
