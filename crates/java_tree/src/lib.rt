//! Java tokens and comments, with their places, and trees of expressions and types.
#![tactic(auto)]

mod depths;
mod exprs;
mod tokens;
mod types;

pub use depths::{MAX_DEPTH, depth_limit};
pub use exprs::{
    AssignOp, BinaryOp, JCreated, JExpr, JLiteral, JParam, JParams, JTypedParam, PostfixOp,
    PrefixOp, Span,
};
pub use tokens::{Comment, Comments, JToken, JTokens, Keyword, Mark, Position, TokenKind, Tokens};
pub use types::{JBrackets, JDotted, JQualified, JType, Primitive};
