//! Typed trees of Java: what each name means, the type of each expression, the member of each call, and each conversion as
//! a node.
#![tactic(auto)]

mod exprs;
mod members;
mod reading;
mod statements;
mod types;
mod units;

pub use exprs::{Conversion, TExpr, TExprs, TLambda, TLambdaParam, UnaryOp};
pub use members::{Access, MemberRef, TModifiers};
pub use reading::{first_at, library_classes, type_of, viewed};
pub use statements::{
    TBody, TCaseGroup, TCatch, TDeclarator, TForStart, TLabel, TLock, TSimple, TStatement,
    TStatements,
};
pub use types::{ClassRef, ResultView, TResult, TType, TTypes, TWritten, TypeView};
pub use units::{
    ClassSort, TBlock, TClass, TConstructor, TField, TFirstCall, TInitializer, TMember, TMethod,
    TParam, TTypeParam, TUnit,
};
