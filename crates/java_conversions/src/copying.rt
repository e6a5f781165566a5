// Copies of types, and types with arguments in the place of type parameters.
ghost use Rattle.std.specs.Prelude.{◌≡◌, map, IfOk};
ghost use Rattle.java_type_relations.specs.Types as s;
ghost use Rattle.java_typed.specs.Reading.{shown};

use j2k_base::NoMemory;
use java_typed::{ClassRef, TType, TTypes, TypeView};
use sqlite_items::{Boxed, Items};
use std::alloc::Global;

#[cycle(copying)]
pub fn copy_type(alloc: Global, x: &TType) -> Result<TType, NoMemory>
    ensures { IfOk result (λ copy. copy ≡ x.now) }
{
    match x {
        TType::Number(kind) => Ok(TType::Number(*kind)),
        TType::Boolean => Ok(TType::Boolean),
        TType::Null => Ok(TType::Null),
        TType::Class(class, args) => {
            let args = copy_types(alloc, args.as_slice())?;
            Ok(TType::Class(*class, args))
        }
        TType::Variable(class, place) => Ok(TType::Variable(*class, *place)),
        TType::Array(element) => {
            let element = copy_type(alloc, element.get())?;
            let element = Boxed::new(alloc, element)?;
            Ok(TType::Array(element))
        }
    }
}

#[cycle(copying)]
pub fn copy_types(alloc: Global, xs: &[TType]) -> Result<TTypes, NoMemory>
    ensures { IfOk result (λ copy. copy ≡ xs.now) }
{
    let mut found = Items::new(alloc);
    for x in xs {
        let more = copy_type(alloc, x)?;
        found.push(more)?;
    }
    Ok(found)
}

/// The type that a view shows.
pub fn copy_view(alloc: Global, x: TypeView<'_>) -> Result<TType, NoMemory>
    ensures { IfOk result (λ copy. copy ≡ shown x.entry) }
{
    match x {
        TypeView::Number(kind) => Ok(TType::Number(kind)),
        TypeView::Boolean => Ok(TType::Boolean),
        TypeView::Null => Ok(TType::Null),
        TypeView::Class(class, args) => {
            let args = copy_types(alloc, args)?;
            Ok(TType::Class(class, args))
        }
        TypeView::Variable(class, place) => Ok(TType::Variable(class, place)),
        TypeView::Array(element) => {
            let element = copy_type(alloc, element)?;
            let element = Boxed::new(alloc, element)?;
            Ok(TType::Array(element))
        }
    }
}

/// The type arguments of a class, in the order of its parameters.
#[derive(Clone, Copy)]
pub struct Arguments<'a> {
    pub class: ClassRef,
    pub list: &'a [TType],
}

/// What stands in the place of a type parameter: its argument, and the parameter where it has none.
fn argument(
    alloc: Global,
    args: Arguments<'_>,
    class: ClassRef,
    place: u32,
) -> Result<TType, NoMemory>
    ensures { IfOk result (λ r. r ≡ s.argument args.entry.class args.entry.list.now class place) }
{
    if args.class == class {
        match args.list.get(place as usize) {
            Some(arg) => copy_type(alloc, arg),
            None => Ok(TType::Variable(class, place)),
        }
    } else {
        Ok(TType::Variable(class, place))
    }
}

/// The type with the arguments of a class in the place of its parameters (JLS 4.5).
#[cycle(putting)]
#[tactic(auto, unfolding(java_type_relations::specs::Types::put))]
pub fn put(alloc: Global, args: Arguments<'_>, x: &TType) -> Result<TType, NoMemory>
    ensures { IfOk result (λ r. r ≡ s.put args.entry.class args.entry.list.now x.now) }
{
    match x {
        TType::Number(kind) => Ok(TType::Number(*kind)),
        TType::Boolean => Ok(TType::Boolean),
        TType::Null => Ok(TType::Null),
        TType::Class(class, inner) => {
            let inner = put_each(alloc, args, inner.as_slice())?;
            Ok(TType::Class(*class, inner))
        }
        TType::Variable(class, place) => argument(alloc, args, *class, *place),
        TType::Array(element) => {
            let element = put(alloc, args, element.get())?;
            let element = Boxed::new(alloc, element)?;
            Ok(TType::Array(element))
        }
    }
}

#[cycle(putting)]
fn put_each(alloc: Global, args: Arguments<'_>, xs: &[TType]) -> Result<TTypes, NoMemory>
    ensures { IfOk result (λ r. r ≡ map (s.put args.entry.class args.entry.list.now) xs.now) }
{
    let mut found = Items::new(alloc);
    for x in xs {
        let more = put(alloc, args, x)?;
        found.push(more)?;
    }
    Ok(found)
}
