// Marks.

ghost use Rattle.std.specs.Prelude.{◌≡◌};
ghost use Rattle.kotlin_lexer.specs.Marks.{either, doubled, equals, not_marks, minus, single, mark_of};

use kotlin_tree::Mark;

/// The mark that a text begins with, and how many letters belong to it behind the first.
#[derive(Clone, Copy)]
pub enum MarkKind {
    Nothing,
    Mark(Mark, usize),
}

fn either(next: u32, expected: u32, long: Mark, short: Mark) -> MarkKind
    ensures { result ≡ either next expected long short }
{
    if next == expected {
        MarkKind::Mark(long, 1)
    } else {
        MarkKind::Mark(short, 0)
    }
}

fn doubled(next: u32, first: u32, mark: Mark) -> MarkKind
    ensures { result ≡ doubled next first mark }
{
    if next == first {
        MarkKind::Mark(mark, 1)
    } else {
        MarkKind::Nothing
    }
}

fn equals(next: u32, third: u32) -> MarkKind
    ensures { result ≡ equals next third }
{
    if next == 61 && third == 61 {
        MarkKind::Mark(Mark::Identical, 2)
    } else {
        either(next, 61, Mark::Equal, Mark::Assign)
    }
}

fn not_marks(next: u32, third: u32) -> MarkKind
    ensures { result ≡ not_marks next third }
{
    if next == 33 {
        MarkKind::Mark(Mark::NotNull, 1)
    } else if next == 61 && third == 61 {
        MarkKind::Mark(Mark::NotIdentical, 2)
    } else {
        either(next, 61, Mark::NotEqual, Mark::Not)
    }
}

fn minus(next: u32) -> MarkKind
    ensures { result ≡ minus next }
{
    if next == 62 {
        MarkKind::Mark(Mark::Arrow, 1)
    } else {
        either(next, 45, Mark::MinusMinus, Mark::Minus)
    }
}

fn single(code: u32) -> MarkKind
    ensures { result ≡ single code }
{
    let mark = match code {
        40 => Mark::OpenRound,
        41 => Mark::CloseRound,
        91 => Mark::OpenSquare,
        93 => Mark::CloseSquare,
        123 => Mark::OpenCurly,
        125 => Mark::CloseCurly,
        44 => Mark::Comma,
        46 => Mark::Dot,
        64 => Mark::At,
        63 => Mark::Question,
        42 => Mark::Star,
        47 => Mark::Slash,
        37 => Mark::Percent,
        _ => return MarkKind::Nothing,
    };
    MarkKind::Mark(mark, 0)
}

/// The longest mark that begins with the first letter, where the others follow.
#[tactic(auto, unfolding(crate::specs::Marks::mark_of))]
pub fn mark_of(first: u32, next: u32, third: u32) -> MarkKind
    ensures { result ≡ mark_of first next third }
{
    match first {
        58 => either(next, 58, Mark::DoubleColon, Mark::Colon),
        61 => equals(next, third),
        33 => not_marks(next, third),
        43 => either(next, 43, Mark::PlusPlus, Mark::Plus),
        45 => minus(next),
        38 => doubled(next, 38, Mark::AndAnd),
        124 => doubled(next, 124, Mark::OrOr),
        60 => either(next, 61, Mark::LessEqual, Mark::Less),
        62 => either(next, 61, Mark::GreaterEqual, Mark::Greater),
        _ => single(first),
    }
}
