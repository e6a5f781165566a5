// Separators and operators.

ghost use Rattle.std.specs.Prelude.{◌≡◌};
ghost use Rattle.java_lexer.specs.Marks.{either, doubled, minus, less, greater, colon, dot, single, mark_of};

use java_tree::Mark;

/// What a text begins with, among the marks, and how many letters belong to it behind the first.
#[derive(Clone, Copy)]
pub enum MarkKind {
    Nothing,
    /// A mark outside the profile.
    Outside(usize),
    Mark(Mark, usize),
}

fn either(next: u32, expected: u32, long: Mark, short: Mark) -> MarkKind
    ensures { result ≡ either next expected long short }
{
    if next == expected {
        MarkKind::Mark(long, 1)
    } else {
        MarkKind::Mark(short, 0)
    }
}

fn doubled(next: u32, first: u32, double: Mark, assign: Mark, single: Mark) -> MarkKind
    ensures { result ≡ doubled next first double assign single }
{
    if next == first {
        MarkKind::Mark(double, 1)
    } else {
        either(next, 61, assign, single)
    }
}

fn minus(next: u32) -> MarkKind
    ensures { result ≡ minus next }
{
    if next == 62 {
        MarkKind::Mark(Mark::Arrow, 1)
    } else {
        doubled(next, 45, Mark::MinusMinus, Mark::MinusAssign, Mark::Minus)
    }
}

fn less(next: u32, third: u32) -> MarkKind
    ensures { result ≡ less next third }
{
    if next == 60 && third == 61 {
        MarkKind::Mark(Mark::ShiftLeftAssign, 2)
    } else if next == 60 {
        MarkKind::Mark(Mark::ShiftLeft, 1)
    } else {
        either(next, 61, Mark::LessEqual, Mark::Less)
    }
}

fn greater(next: u32) -> MarkKind
    ensures { result ≡ greater next }
{
    if next == 62 || next == 61 {
        MarkKind::Mark(Mark::GreaterJoined, 0)
    } else {
        MarkKind::Mark(Mark::Greater, 0)
    }
}

fn colon(next: u32) -> MarkKind
    ensures { result ≡ colon next }
{
    if next == 58 {
        MarkKind::Outside(1)
    } else {
        MarkKind::Mark(Mark::Colon, 0)
    }
}

fn dot(next: u32, third: u32) -> MarkKind
    ensures { result ≡ dot next third }
{
    if next == 46 && third == 46 {
        MarkKind::Outside(2)
    } else {
        MarkKind::Mark(Mark::Dot, 0)
    }
}

fn single(code: u32) -> MarkKind
    ensures { result ≡ single code }
{
    let mark = match code {
        40 => Mark::OpenRound,
        41 => Mark::CloseRound,
        123 => Mark::OpenCurly,
        125 => Mark::CloseCurly,
        91 => Mark::OpenSquare,
        93 => Mark::CloseSquare,
        59 => Mark::Semicolon,
        44 => Mark::Comma,
        63 => Mark::Question,
        126 => Mark::Tilde,
        64 => Mark::At,
        _ => return MarkKind::Nothing,
    };
    MarkKind::Mark(mark, 0)
}

/// The longest mark that begins with the first letter, where the others follow.
#[tactic(auto, unfolding(crate::specs::Marks::mark_of))]
pub fn mark_of(first: u32, next: u32, third: u32) -> MarkKind
    ensures { result ≡ mark_of first next third }
{
    match first {
        46 => dot(next, third),
        61 => either(next, 61, Mark::Equal, Mark::Assign),
        33 => either(next, 61, Mark::NotEqual, Mark::Not),
        43 => doubled(next, 43, Mark::PlusPlus, Mark::PlusAssign, Mark::Plus),
        45 => minus(next),
        42 => either(next, 61, Mark::StarAssign, Mark::Star),
        47 => either(next, 61, Mark::SlashAssign, Mark::Slash),
        37 => either(next, 61, Mark::PercentAssign, Mark::Percent),
        38 => doubled(next, 38, Mark::AndAnd, Mark::AndAssign, Mark::And),
        124 => doubled(next, 124, Mark::OrOr, Mark::OrAssign, Mark::Or),
        94 => either(next, 61, Mark::HatAssign, Mark::Hat),
        60 => less(next, third),
        58 => colon(next),
        62 => greater(next),
        _ => single(first),
    }
}
