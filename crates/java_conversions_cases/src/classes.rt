// The classes of the rows.

use crate::types::type_of;
use j2k_base::NoMemory;
use java_lib::simple_row;
use java_library_heads::library_heads;
use java_type_relations::{ClassForm, Head, Heads};
use java_typed::{ClassRef, TTypes};
use sqlite_items::Items;
use std::alloc::Global;

/// A class of the project: its name, its form, the bounds of its type parameters and its direct supertypes.
#[derive(Clone, Copy)]
struct Row {
    name: &'static str,
    form: ClassForm,
    bounds: &'static [&'static str],
    supers: &'static [&'static str],
}

macro_rules! row {
    ($form:ident $name:literal [$($bound:literal)*] [$($above:literal)*]) => {
        Row { name: $name, form: ClassForm::$form, bounds: &[$($bound),*], supers: &[$($above),*] }
    };
}

/// The project of bench/conversions/rows.py; the type parameters are called T, U, V and W in their order.
const PROJECT: [Row; 15] = [
    row!(Interface "Shape" [] ["Object"]),
    row!(Interface "Solid" [] ["Shape"]),
    row!(Interface "Source" ["Object"] ["Object"]),
    row!(Class "Base" [] ["Object" "Shape"]),
    row!(Class "Derived" [] ["Base" "Solid"]),
    row!(Final "Leaf" [] ["Base"]),
    row!(Class "Box" ["Object"] ["Object" "T Source/1"]),
    row!(Class "TextBox" [] ["String Box/1"]),
    row!(Class "Pair" ["Object" "Object"] ["T Box/1"]),
    row!(Class "Twice" ["Object"] ["T List/1 T Pair/2"]),
    row!(Interface "Left" [] ["Solid"]),
    row!(Interface "Right" [] ["Solid"]),
    row!(Class "Both" [] ["Derived" "Left" "Right"]),
    row!(Class "Names" [] ["String ArrayList/1"]),
    row!(Class "Use" ["Object" "Base" "U" "String Box/1"] ["Object"]),
];

/// The class of a name, and Object where no class has it.
pub fn class_of(name: &str) -> ClassRef {
    for (number, row) in PROJECT.iter().enumerate() {
        if row.name == name {
            return ClassRef::Project(number as u32);
        }
    }
    match simple_row(name.as_bytes()) {
        Some(row) => ClassRef::Library(row.number),
        None => ClassRef::Library(0),
    }
}

fn types_of(alloc: Global, own: ClassRef, texts: &[&str]) -> Result<TTypes, NoMemory> {
    let mut found = Items::new(alloc);
    for text in texts {
        let kind = type_of(alloc, own, text)?;
        found.push(kind)?;
    }
    Ok(found)
}

fn project_head(alloc: Global, own: ClassRef, row: Row) -> Result<Head, NoMemory> {
    let bounds = types_of(alloc, own, row.bounds)?;
    let supers = types_of(alloc, own, row.supers)?;
    Ok(Head {
        form: row.form,
        bounds,
        supers,
    })
}

fn project_heads(alloc: Global) -> Result<Items<Head>, NoMemory> {
    let mut found = Items::new(alloc);
    for (number, row) in PROJECT.iter().enumerate() {
        let head = project_head(alloc, ClassRef::Project(number as u32), *row)?;
        found.push(head)?;
    }
    Ok(found)
}

/// The heads of the library and of the project of the rows.
pub fn heads(alloc: Global) -> Result<Heads, NoMemory> {
    let library = library_heads(alloc)?;
    let project = project_heads(alloc)?;
    Ok(Heads {
        library,
        project,
        steps: 60,
    })
}
