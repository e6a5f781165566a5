//! The brackets that are open.

ghost use Rattle.std.specs.Prelude.{◌≡◌, reverse, IfOk};
ghost use Rattle.kotlin_brackets.specs.Brackets as b;
ghost use Rattle.kotlin_brackets.specs.Steps as s;

use crate::flaws::{Flaw, Flawed};
use j2k_base::NoMemory;
use kotlin_tree::{Mark, TokenKind};

/// How many brackets may be open at one place.
const DEEPEST: usize = 1600;

/// The form of a bracket.
#[derive(Clone, Copy)]
pub enum Form {
    Round,
    Square,
    Curly,
}

/// What a token is among brackets.
#[derive(Clone, Copy)]
pub enum Bracket {
    Opens(Form),
    Closes(Form),
    Other,
}

/// An opening bracket, and the number of its token.
#[derive(Clone, Copy)]
pub struct Opened {
    pub number: u32,
    pub form: Form,
}

fn bracket_mark(mark: Mark) -> Bracket
    ensures { result ≡ b.bracket_mark mark }
{
    match mark {
        Mark::OpenRound => Bracket::Opens(Form::Round),
        Mark::OpenSquare => Bracket::Opens(Form::Square),
        Mark::OpenCurly => Bracket::Opens(Form::Curly),
        Mark::CloseRound => Bracket::Closes(Form::Round),
        Mark::CloseSquare => Bracket::Closes(Form::Square),
        Mark::CloseCurly => Bracket::Closes(Form::Curly),
        _ => Bracket::Other,
    }
}

pub fn bracket_of(kind: &TokenKind) -> Bracket
    ensures { result ≡ b.bracket kind.now }
{
    match kind {
        TokenKind::Mark(mark) => bracket_mark(*mark),
        _ => Bracket::Other,
    }
}

fn same(one: Form, other: Form) -> bool
    ensures { result ≡ b.same one other }
{
    match (one, other) {
        (Form::Round, Form::Round) => true,
        (Form::Square, Form::Square) => true,
        (Form::Curly, Form::Curly) => true,
        _ => false,
    }
}

/// The number of the one that a bracket closes.
#[tactic(auto, using(crate::proofs::Lists::lists))]
pub fn closed_by(stack: &[Opened], bracket: Bracket) -> Option<u32>
    ensures { result ≡ b.closed_by (reverse stack.now) bracket }
{
    let Bracket::Closes(form) = bracket else {
        return None;
    };
    let (innermost, _) = stack.split_last()?;
    if same(innermost.form, form) {
        Some(innermost.number)
    } else {
        None
    }
}

/// Those that are open behind a bracket.
#[tactic(auto, using(crate::proofs::Lists::lists))]
pub fn pass(
    stack: &mut Vec<Opened>,
    number: u32,
    bracket: Bracket,
    partner: Option<u32>,
) -> Result<(), NoMemory>
    requires { partner ≡ b.closed_by (reverse stack.old.items) bracket }
    ensures { IfOk result (λ _. reverse stack.new.items ≡ b.after (reverse stack.old.items) number bracket) }
{
    match bracket {
        Bracket::Opens(form) => stack.push(Opened { number, form })?,
        Bracket::Closes(_) if partner.is_some() => {
            stack.pop();
        }
        _ => {}
    }
    Ok(())
}

/// What is known to be wrong with a bracket as soon as it is read.
#[tactic(auto, using(crate::proofs::Lists::lists))]
pub fn flaw_of(stack: &[Opened], bracket: Bracket, partner: Option<u32>) -> Option<Flaw>
    requires { partner ≡ b.closed_by (reverse stack.now) bracket }
    ensures { result ≡ s.flaw_of (reverse stack.now) bracket }
{
    match bracket {
        Bracket::Opens(_) if stack.len() == DEEPEST => Some(Flaw::TooDeep),
        Bracket::Closes(_) if partner.is_none() => Some(Flaw::Lonely),
        _ => None,
    }
}

/// The first of the flaws of the brackets that are left open and the first of the others.
pub fn least_flaw(left: &[Opened], seen: Option<Flawed>) -> Option<Flawed>
    ensures { result ≡ s.least_flaw left.now seen }
{
    let Some(outermost) = left.first() else {
        return seen;
    };
    match seen {
        Some(flawed) if flawed.number < outermost.number => seen,
        _ => Some(Flawed {
            number: outermost.number,
            flaw: Flaw::Lonely,
        }),
    }
}
