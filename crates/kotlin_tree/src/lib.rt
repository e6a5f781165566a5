//! Kotlin tokens and trees, with their places.
#![tactic(auto)]

mod comments;
mod expressions;
mod files;
mod members;
mod places;
mod statements;
mod tokens;
mod types;

pub use comments::Comments;
pub use expressions::{
    KBinary, KChoice, KClassAt, KElseAt, KExpr, KHeadAt, KLambdaNames, KLiteral, KPostfix, KPrefix,
    KSuperAt,
};
pub use files::{
    KClass, KClassWord, KFile, KFiles, KImport, KPackage, KSuper, KSupers, KTypeParam, KTypeParams,
};
pub use members::{
    KCalled, KCompanionAt, KDelegation, KMember, KModifier, KModifierKind, KParam, KParams,
    KPrivateSet, KTyped, KValue,
};
pub use places::{Brackets, Position};
pub use statements::{
    KBlock, KBranch, KCatch, KDeclared, KFinallyAt, KLabel, KStmt, KTarget, KVariability,
};
pub use tokens::{Gap, KToken, KTokens, Keyword, Mark, TokenKind, Word};
pub use types::{KDotted, KName, KQualified, KType, KTypeArguments};
