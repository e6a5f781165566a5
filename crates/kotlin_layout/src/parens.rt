// Where parentheses are needed.

ghost use Rattle.std.specs.Prelude.{◌≡◌};
ghost use Rattle.kotlin_layout.specs.Parens as s;

use kotlin_tree::{KBinary, KExpr, KPrefix};

/// What stands beside an expression without a bracket between them, as far as it matters.
#[derive(Clone, Copy)]
pub enum Neighbor {
    Other,
    /// This operator before it.
    Prefix(KPrefix),
    /// `<` behind it.
    Less,
    /// `>` behind it.
    Greater,
}

/// A place of an expression: the level of the loosest operator that it takes, whether a comma may follow within the same
/// brackets, and what stands beside it.
#[derive(Clone, Copy)]
pub struct Place {
    pub level: u8,
    pub in_list: bool,
    pub neighbor: Neighbor,
}

/// The level of an operator: one that binds more tightly has a higher one (Kotlin, "Syntax and grammar").
pub fn level_of(operator: KBinary) -> u8
    ensures { result ≡ s.level operator }
{
    match operator {
        KBinary::OrElse => 1,
        KBinary::AndAlso => 2,
        KBinary::Equal | KBinary::NotEqual | KBinary::Same | KBinary::NotSame => 3,
        KBinary::Less | KBinary::Greater | KBinary::LessEqual | KBinary::GreaterEqual => 4,
        KBinary::ShiftLeft
        | KBinary::ShiftRight
        | KBinary::ShiftUnsigned
        | KBinary::BitAnd
        | KBinary::BitOr
        | KBinary::BitXor => 6,
        KBinary::Add | KBinary::Subtract => 7,
        KBinary::Multiply | KBinary::Divide | KBinary::Remainder => 8,
    }
}

// The level of an expression's outermost form.
#[tactic(auto, unfolding(crate::specs::Parens::outer_level))]
fn outer_level(x: &KExpr) -> u8
    ensures { result ≡ s.outer_level x.now }
{
    match x {
        KExpr::IfValue { .. } => 0,
        KExpr::Binary { operator, .. } => level_of(*operator),
        KExpr::Is(..) => 5,
        KExpr::As(..) => 9,
        KExpr::Prefix(..) => 10,
        _ => 11,
    }
}

#[tactic(auto, unfolding(crate::specs::Parens::is_as))]
fn is_as(x: &KExpr) -> bool
    ensures { result ≡ s.is_as x.now }
{
    matches!(x, KExpr::As(..))
}

fn is_angle(operator: KBinary) -> bool
    ensures { result ≡ s.is_angle operator }
{
    match operator {
        KBinary::Less | KBinary::Greater => true,
        _ => false,
    }
}

#[tactic(auto, unfolding(crate::specs::Parens::compares))]
fn compares(x: &KExpr) -> bool
    ensures { result ≡ s.compares x.now }
{
    match x {
        KExpr::Binary { operator, .. } => is_angle(*operator),
        _ => false,
    }
}

fn joins(first: KPrefix, second: KPrefix) -> bool
    ensures { result ≡ s.joins first second }
{
    match first {
        KPrefix::Plus => match second {
            KPrefix::Plus | KPrefix::Increment => true,
            _ => false,
        },
        KPrefix::Minus => match second {
            KPrefix::Minus | KPrefix::Decrement => true,
            _ => false,
        },
        KPrefix::Not => match second {
            KPrefix::Not => true,
            _ => false,
        },
        KPrefix::Increment | KPrefix::Decrement => false,
    }
}

#[tactic(auto, unfolding(crate::specs::Parens::joins_prefix))]
fn joins_prefix(first: KPrefix, x: &KExpr) -> bool
    ensures { result ≡ s.joins_prefix first x.now }
{
    match x {
        KExpr::Prefix(second, ..) => joins(first, *second),
        _ => false,
    }
}

#[tactic(auto, unfolding(crate::specs::Parens::is_is))]
fn is_is(x: &KExpr) -> bool
    ensures { result ≡ s.is_is x.now }
{
    matches!(x, KExpr::Is(..))
}

fn is_less(operator: KBinary) -> bool
    ensures { result ≡ s.is_less operator }
{
    match operator {
        KBinary::Less => true,
        _ => false,
    }
}

#[tactic(auto, unfolding(crate::specs::Parens::compares_less))]
fn compares_less(x: &KExpr) -> bool
    ensures { result ≡ s.compares_less x.now }
{
    match x {
        KExpr::Binary { operator, .. } => is_less(*operator),
        _ => false,
    }
}

// Whether what stands beside it would be read with a part of it.
fn clashes(neighbor: Neighbor, x: &KExpr) -> bool
    ensures { result ≡ s.clashes neighbor x.now }
{
    match neighbor {
        Neighbor::Other => false,
        Neighbor::Prefix(first) => joins_prefix(first, x),
        Neighbor::Less => is_is(x),
        Neighbor::Greater => compares_less(x),
    }
}

// Whether it is looser than a place takes, or an `as` that is an operand.
#[tactic(auto, unfolding(crate::specs::Parens::is_looser))]
fn is_looser(place: Place, x: &KExpr) -> bool
    ensures { result ≡ s.is_looser place x.now }
{
    if is_as(x) {
        place.level > 0
    } else {
        outer_level(x) < place.level
    }
}

// Whether it may be read as type arguments.
fn mixes(place: Place, x: &KExpr) -> bool
    ensures { result ≡ s.mixes place x.now }
{
    place.in_list && compares(x)
}

/// Whether an expression stands at a place in parentheses alone: where it is looser than the place takes, an `as` where
/// it is an operand, a comparison by `<` or `>` in a list, and where it would be read with what stands beside it.
#[tactic(auto, unfolding(crate::specs::Parens::needs_parens))]
pub fn needs_parens(place: Place, x: &KExpr) -> bool
    ensures { result ≡ s.needs_parens place x.now }
{
    is_looser(place, x) || mixes(place, x) || clashes(place.neighbor, x)
}
