// What is looked for among supertypes.

use java_typed::{ClassRef, TType, TTypes};

/// What a supertype is to be: of a class, or a type parameter.
#[derive(Clone, Copy)]
pub enum Sought {
    Class(ClassRef),
    Variable(ClassRef, u32),
}

/// What a level of supertypes shows.
#[derive(Drop)]
pub enum Step {
    Found(TType),
    End,
    Next(TTypes),
}
