//! What goes on after an operand.

ghost use Rattle.std.specs.Prelude.{◌≡◌};
ghost use Rattle.java_tree.specs.Trees as s;
ghost use Rattle.java_token_cursor.specs.Shown.{shown};
ghost use Rattle.java_expr_grammar.specs.Reading as r;
ghost use Rattle.java_token_cursor.specs.Heads.{Finds};

use java_expr_grammar::Suffix;
use java_token_cursor::{Head, Pieces, first};
use java_tree::{
    AssignOp, BinaryOp, JExpr, JLiteral, Keyword, Mark, Position, PostfixOp, PrefixOp,
};

fn joined_thrice<'a>(
    at: Position,
    second: Position,
    third: Position,
    pieces: Pieces<'a>,
) -> Option<(Suffix, Pieces<'a>)>
    ensures { Finds (r.joined_thrice at second third (shown pieces.now)) result }
{
    match first(pieces) {
        Head::Mark(Mark::Assign, fourth, rest) => {
            let op = AssignOp::ShiftUnsigned(second, third, fourth);
            Some((Suffix::Assign(op, at), rest))
        }
        _ => None,
    }
}

fn joined_twice<'a>(
    at: Position,
    second: Position,
    pieces: Pieces<'a>,
) -> Option<(Suffix, Pieces<'a>)>
    ensures { Finds (r.joined_twice at second (shown pieces.now)) result }
{
    match first(pieces) {
        Head::Mark(Mark::Assign, third, rest) => {
            let op = AssignOp::ShiftRight(second, third);
            Some((Suffix::Assign(op, at), rest))
        }
        Head::Mark(Mark::Greater, third, rest) => {
            let op = BinaryOp::ShiftUnsigned(second, third);
            Some((Suffix::Binary(op, at), rest))
        }
        Head::Mark(Mark::GreaterJoined, third, rest) => joined_thrice(at, second, third, rest),
        _ => None,
    }
}

fn joined<'a>(at: Position, pieces: Pieces<'a>) -> Option<(Suffix, Pieces<'a>)>
    ensures { Finds (r.joined at (shown pieces.now)) result }
{
    match first(pieces) {
        Head::Mark(Mark::Greater, second, rest) => {
            Some((Suffix::Binary(BinaryOp::ShiftRight(second), at), rest))
        }
        Head::Mark(Mark::Assign, second, rest) => {
            Some((Suffix::Binary(BinaryOp::GreaterEqual(second), at), rest))
        }
        Head::Mark(Mark::GreaterJoined, second, rest) => joined_twice(at, second, rest),
        _ => None,
    }
}

fn suffix_by<'a>(mark: Mark, at: Position, rest: Pieces<'a>) -> Option<(Suffix, Pieces<'a>)>
    ensures { Finds (r.suffix_by mark at (shown rest.now)) result }
{
    let suffix = match mark {
        Mark::GreaterJoined => return joined(at, rest),
        Mark::PlusPlus => Suffix::Postfix(PostfixOp::Increment, at),
        Mark::MinusMinus => Suffix::Postfix(PostfixOp::Decrement, at),
        Mark::Question => Suffix::Question(at),
        Mark::Dot => Suffix::Dot(at),
        Mark::OpenSquare => Suffix::Square(at),
        Mark::OrOr => Suffix::Binary(BinaryOp::OrElse, at),
        Mark::AndAnd => Suffix::Binary(BinaryOp::AndAlso, at),
        Mark::Or => Suffix::Binary(BinaryOp::BitOr, at),
        Mark::Hat => Suffix::Binary(BinaryOp::BitXor, at),
        Mark::And => Suffix::Binary(BinaryOp::BitAnd, at),
        Mark::Equal => Suffix::Binary(BinaryOp::Equal, at),
        Mark::NotEqual => Suffix::Binary(BinaryOp::NotEqual, at),
        Mark::Less => Suffix::Binary(BinaryOp::Less, at),
        Mark::LessEqual => Suffix::Binary(BinaryOp::LessEqual, at),
        Mark::Greater => Suffix::Binary(BinaryOp::Greater, at),
        Mark::ShiftLeft => Suffix::Binary(BinaryOp::ShiftLeft, at),
        Mark::Plus => Suffix::Binary(BinaryOp::Add, at),
        Mark::Minus => Suffix::Binary(BinaryOp::Subtract, at),
        Mark::Star => Suffix::Binary(BinaryOp::Multiply, at),
        Mark::Slash => Suffix::Binary(BinaryOp::Divide, at),
        Mark::Percent => Suffix::Binary(BinaryOp::Remainder, at),
        Mark::Assign => Suffix::Assign(AssignOp::Plain, at),
        Mark::PlusAssign => Suffix::Assign(AssignOp::Add, at),
        Mark::MinusAssign => Suffix::Assign(AssignOp::Subtract, at),
        Mark::StarAssign => Suffix::Assign(AssignOp::Multiply, at),
        Mark::SlashAssign => Suffix::Assign(AssignOp::Divide, at),
        Mark::PercentAssign => Suffix::Assign(AssignOp::Remainder, at),
        Mark::ShiftLeftAssign => Suffix::Assign(AssignOp::ShiftLeft, at),
        Mark::AndAssign => Suffix::Assign(AssignOp::BitAnd, at),
        Mark::OrAssign => Suffix::Assign(AssignOp::BitOr, at),
        Mark::HatAssign => Suffix::Assign(AssignOp::BitXor, at),
        _ => return None,
    };
    Some((suffix, rest))
}

/// The suffix that comes first.
#[tactic(auto, unfolding(java_expr_grammar::specs::Reading::suffix))]
pub fn next_suffix<'a>(pieces: Pieces<'a>) -> Option<(Suffix, Pieces<'a>)>
    ensures { Finds (r.suffix (shown pieces.now)) result }
{
    match first(pieces) {
        Head::Mark(mark, at, rest) => suffix_by(mark, at, rest),
        Head::Word(Keyword::Instanceof, at, rest) => Some((Suffix::Instanceof(at), rest)),
        _ => None,
    }
}

/// The level of the form that the operator makes: 4 for `||` up to 13 for `*`.
pub fn level(op: BinaryOp) -> usize
    ensures { result ≡ s.level op }
{
    match op {
        BinaryOp::OrElse => 4,
        BinaryOp::AndAlso => 5,
        BinaryOp::BitOr => 6,
        BinaryOp::BitXor => 7,
        BinaryOp::BitAnd => 8,
        BinaryOp::Equal | BinaryOp::NotEqual => 9,
        BinaryOp::Less | BinaryOp::LessEqual | BinaryOp::Greater | BinaryOp::GreaterEqual(_) => 10,
        BinaryOp::ShiftLeft | BinaryOp::ShiftRight(_) | BinaryOp::ShiftUnsigned(_, _) => 11,
        BinaryOp::Add | BinaryOp::Subtract => 12,
        BinaryOp::Multiply | BinaryOp::Divide | BinaryOp::Remainder => 13,
    }
}

/// The level of the form that the suffix makes.
pub fn strength(suffix: Suffix) -> usize
    ensures { result ≡ r.strength suffix }
{
    match suffix {
        Suffix::Binary(op, _) => level(op),
        Suffix::Assign(_, _) => 1,
        Suffix::Question(_) => 3,
        Suffix::Dot(_) | Suffix::Square(_) => 16,
        Suffix::Postfix(_, _) => 15,
        Suffix::Instanceof(_) => 10,
    }
}

/// The level of the outermost form.
#[tactic(auto, unfolding(java_tree::specs::Trees::top))]
pub fn top(e: &JExpr) -> usize
    ensures { result ≡ s.top e.now }
{
    match e {
        JExpr::Assign(_, _, _, _) => 1,
        JExpr::Braces(_, _, _, _, _) => 0,
        JExpr::Lambda(_, _, _) | JExpr::LambdaBlock(_, _, _) => 2,
        JExpr::Conditional(_, _, _, _, _) => 3,
        JExpr::Binary(_, op, _, _) => level(*op),
        JExpr::Instanceof(_, _, _) => 10,
        JExpr::Prefix(_, _, _) | JExpr::Cast(_, _, _, _) | JExpr::MinusLeast(_, _, _) => 14,
        JExpr::Postfix(_, _, _) => 15,
        _ => 16,
    }
}

/// Whether it may stand before an assignment operator (JLS 15.26).
#[tactic(auto, unfolding(java_tree::specs::Trees::is_left))]
fn is_left(e: &JExpr) -> bool
    ensures { result ≡ s.is_left e.now }
{
    match e {
        JExpr::Name(_, _) | JExpr::Field(_, _, _, _) | JExpr::Element(_, _, _, _) => true,
        _ => false,
    }
}

#[tactic(auto, unfolding(java_tree::specs::Trees::is_test))]
fn is_test(e: &JExpr) -> bool
    ensures { result ≡ s.is_test e.now }
{
    match e {
        JExpr::Instanceof(_, _, _) => true,
        _ => false,
    }
}

/// A `<` behind an `instanceof` begins the arguments of its type.
fn may_compare(op: BinaryOp, left: &JExpr) -> bool
    ensures { result ≡ s.may_compare op (s.is_test left.now) }
{
    match op {
        BinaryOp::Less => !is_test(left),
        _ => true,
    }
}

/// Whether it is an array that is created with a size.
#[tactic(auto, unfolding(java_tree::specs::Trees::is_sized))]
fn is_sized(e: &JExpr) -> bool
    ensures { result ≡ s.is_sized e.now }
{
    match e {
        JExpr::NewArray(_, _, _, _, _, _) => true,
        _ => false,
    }
}

/// Whether only the unary minus takes the literal.
pub fn is_least(literal: &JLiteral) -> bool
    ensures { result ≡ s.is_least literal.now }
{
    match literal {
        JLiteral::LeastInteger | JLiteral::LeastLong => true,
        _ => false,
    }
}

/// Whether the suffix may stand after the operand.
pub fn takes(suffix: Suffix, left: &JExpr) -> bool
    ensures { result ≡ r.takes suffix left.now }
{
    match suffix {
        Suffix::Binary(op, _) => level(op) <= top(left) && may_compare(op, left),
        Suffix::Assign(_, _) => is_left(left),
        Suffix::Question(_) => 4 <= top(left),
        Suffix::Dot(_) => 16 <= top(left),
        Suffix::Square(_) => 16 <= top(left) && !is_sized(left),
        Suffix::Postfix(_, _) => 15 <= top(left),
        Suffix::Instanceof(_) => 10 <= top(left),
    }
}

/// The operator that the mark is before an operand.
pub fn prefix(mark: Mark) -> Option<PrefixOp>
    ensures { result ≡ r.prefix_by mark }
{
    match mark {
        Mark::Plus => Some(PrefixOp::Plus),
        Mark::Minus => Some(PrefixOp::Minus),
        Mark::PlusPlus => Some(PrefixOp::Increment),
        Mark::MinusMinus => Some(PrefixOp::Decrement),
        Mark::Tilde => Some(PrefixOp::Complement),
        Mark::Not => Some(PrefixOp::Not),
        _ => None,
    }
}
