// Types from their words, each class behind its arguments.

use crate::classes::class_of;
use j2k_base::{Kind, NoMemory};
use java_typed::{ClassRef, TType};
use sqlite_items::{Boxed, Items};
use std::alloc::Global;

/// The class in which the rows stand.
pub const USE: ClassRef = ClassRef::Project(14);

type Stack = Vec<TType>;

/// What a word of a type is.
#[derive(Clone, Copy)]
enum Part {
    Number(Kind),
    Boolean,
    Null,
    Array,
    Variable(u32),
    /// A class with so many arguments.
    Class(ClassRef, usize),
}

fn named(word: &str) -> Part {
    match word.split_once('/') {
        Some((name, count)) => Part::Class(class_of(name), count.parse::<usize>().unwrap_or(0)),
        None => Part::Class(class_of(word), 0),
    }
}

fn part_of(word: &str) -> Part {
    match word {
        "byte" => Part::Number(Kind::Byte),
        "short" => Part::Number(Kind::Short),
        "char" => Part::Number(Kind::Char),
        "int" => Part::Number(Kind::Int),
        "long" => Part::Number(Kind::Long),
        "boolean" => Part::Boolean,
        "null" => Part::Null,
        "[]" => Part::Array,
        "T" => Part::Variable(0),
        "U" => Part::Variable(1),
        "V" => Part::Variable(2),
        "W" => Part::Variable(3),
        _ => named(word),
    }
}

fn put_array(alloc: Global, stack: &mut Stack) -> Result<(), NoMemory> {
    if let Some(element) = stack.pop() {
        let element = Boxed::new(alloc, element)?;
        stack.push(TType::Array(element))?;
    }
    Ok(())
}

fn put_class(stack: &mut Stack, class: ClassRef, count: usize) -> Result<(), NoMemory> {
    let args = stack.split_off(stack.len().saturating_sub(count))?;
    stack.push(TType::Class(class, Items::from_vec(args)))?;
    Ok(())
}

fn put_word(alloc: Global, own: ClassRef, stack: &mut Stack, word: &str) -> Result<(), NoMemory> {
    match part_of(word) {
        Part::Number(kind) => stack.push(TType::Number(kind))?,
        Part::Boolean => stack.push(TType::Boolean)?,
        Part::Null => stack.push(TType::Null)?,
        Part::Array => put_array(alloc, stack)?,
        Part::Variable(place) => stack.push(TType::Variable(own, place))?,
        Part::Class(class, count) => put_class(stack, class, count)?,
    }
    Ok(())
}

/// The type of the words, where `T` to `W` are the type parameters of a class, and the type of `null` where
/// they are none.
pub fn type_of(alloc: Global, own: ClassRef, text: &str) -> Result<TType, NoMemory> {
    let mut stack = Vec::new(alloc);
    for word in text.split(' ') {
        put_word(alloc, own, &mut stack, word)?;
    }
    Ok(stack.pop().unwrap_or(TType::Null))
}
