// The brackets that are open, as far as line ends are concerned.

ghost use Rattle.std.specs.Prelude.{◌≡◌, reverse, IfOk};
ghost use Rattle.kotlin_lexer.specs.Nesting as o;

use j2k_base::NoMemory;
use kotlin_tree::{Mark, TokenKind};

/// The form of a bracket.
#[derive(Clone, Copy)]
pub enum Form {
    Round,
    Square,
    Curly,
}

/// What a token is among brackets.
#[derive(Clone, Copy)]
pub enum Bracket {
    Opens(Form),
    Closes(Form),
    Other,
}

fn bracket_mark(mark: Mark) -> Bracket
    ensures { result ≡ o.bracket_mark mark }
{
    match mark {
        Mark::OpenRound => Bracket::Opens(Form::Round),
        Mark::OpenSquare => Bracket::Opens(Form::Square),
        Mark::OpenCurly => Bracket::Opens(Form::Curly),
        Mark::CloseRound => Bracket::Closes(Form::Round),
        Mark::CloseSquare => Bracket::Closes(Form::Square),
        Mark::CloseCurly => Bracket::Closes(Form::Curly),
        _ => Bracket::Other,
    }
}

fn bracket_of(kind: &TokenKind) -> Bracket
    ensures { result ≡ o.bracket kind.now }
{
    match kind {
        TokenKind::Mark(mark) => bracket_mark(*mark),
        _ => Bracket::Other,
    }
}

fn same(one: Form, other: Form) -> bool
    ensures { result ≡ o.same one other }
{
    match (one, other) {
        (Form::Round, Form::Round) => true,
        (Form::Square, Form::Square) => true,
        (Form::Curly, Form::Curly) => true,
        _ => false,
    }
}

fn is_curly(form: Form) -> bool
    ensures { result ≡ o.is_curly form }
{
    match form {
        Form::Curly => true,
        _ => false,
    }
}

/// Whether the innermost open bracket is `(` or `[`.
#[tactic(auto, using(crate::proofs::Lists::lists))]
pub fn is_listed(opened: &[Form]) -> bool
    ensures { result ≡ o.is_listed (reverse opened.now) }
{
    match opened.split_last() {
        Some((innermost, _)) => !is_curly(*innermost),
        None => false,
    }
}

#[tactic(auto, using(crate::proofs::Lists::lists))]
fn closes_innermost(opened: &[Form], form: Form) -> bool
    ensures { result ≡ o.closes_innermost (reverse opened.now) form }
{
    match opened.split_last() {
        Some((innermost, _)) => same(*innermost, form),
        None => false,
    }
}

/// Those that are open behind a token.
#[tactic(auto, using(crate::proofs::Lists::lists))]
pub fn pass(opened: &mut Vec<Form>, kind: &TokenKind) -> Result<(), NoMemory>
    ensures { IfOk result (λ _. reverse opened.new.items ≡ o.open_behind (reverse opened.old.items) kind.now) }
{
    match bracket_of(kind) {
        Bracket::Opens(form) => opened.push(form)?,
        Bracket::Closes(form) => {
            if closes_innermost(opened, form) {
                opened.pop();
            }
        }
        Bracket::Other => {}
    }
    Ok(())
}
