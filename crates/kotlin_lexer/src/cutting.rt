// A text is cut into blanks, line ends, `;` and tokens.

ghost use Rattle.std.specs.Prelude.{◌≡◌, ◌+◌, ◌-◌, ◌^◌, ◌<◌, ◌≤◌, ◌++◌, length, reverse, false, IfOk};
ghost use Rattle.kotlin_lexer.specs.Found.{is_last};
ghost use Rattle.kotlin_lexer.specs.Nesting.{is_listed};
ghost use Rattle.kotlin_lexer.specs.Cutting.{line_end_gap, gap_at_line_end, gap_next, open_next, token_in, fault_of, Reading};

use crate::found::{LexFault, Piece, let_go};
use crate::nesting::{Form, is_listed, pass};
use crate::pieces::piece_of;
use j2k_base::NoMemory;
use kotlin_characters::start;
use kotlin_tree::{Gap, KToken, KTokens, TokenKind};
use std::alloc::Global;

fn is_last(piece: &Piece) -> bool
    ensures { result ≡ is_last piece.now }
{
    match piece {
        Piece::End(_) => true,
        Piece::Fault(_) => true,
        _ => false,
    }
}

fn line_end_gap(gap: Gap) -> Gap
    ensures { result ≡ line_end_gap gap }
{
    match gap {
        Gap::Plain => Gap::Line,
        Gap::Line => Gap::Line,
        Gap::Semicolon => Gap::Semicolon,
    }
}

fn gap_at_line_end(is_listed: bool, gap: Gap) -> Gap
    ensures { result ≡ gap_at_line_end is_listed gap }
{
    if is_listed { gap } else { line_end_gap(gap) }
}

/// What stands before the next token, behind one more piece.
fn gap_next(is_listed: bool, gap: Gap, piece: &Piece) -> Gap
    ensures { result ≡ gap_next is_listed gap piece.now }
{
    match piece {
        Piece::LineEnd => gap_at_line_end(is_listed, gap),
        Piece::Semicolon => Gap::Semicolon,
        Piece::Token(_, _) => Gap::Plain,
        _ => gap,
    }
}

/// The brackets that are open behind one more piece.
fn pass_piece(opened: &mut Vec<Form>, piece: &Piece) -> Result<(), NoMemory>
    ensures { IfOk result (λ _. reverse opened.new.items ≡ open_next (reverse opened.old.items) piece.now) }
{
    match piece {
        Piece::Token(kind, _) => pass(opened, kind),
        _ => Ok(()),
    }
}

fn fault_of(piece: &Piece) -> Option<LexFault>
    ensures { result ≡ fault_of piece.now }
{
    match piece {
        Piece::Fault(fault) => Some(*fault),
        _ => None,
    }
}

fn keep(tokens: &mut KTokens, gap: Gap, piece: Piece) -> Result<(), NoMemory>
    ensures { IfOk result (λ _. tokens.new ≡ tokens.old ++ token_in gap piece) }
{
    match piece {
        Piece::Token(kind, position) => tokens.push(KToken {
            kind,
            gap,
            position,
        }),
        Piece::End(position) => tokens.push(KToken {
            kind: TokenKind::End,
            gap,
            position,
        }),
        _ => Ok(()),
    }
}

/// What was read so far: the tokens, the brackets that are open, the outermost first, and what
/// stands before the next token.
#[derive(Drop)]
struct Taken {
    tokens: KTokens,
    opened: Vec<Form>,
    gap: Gap,
}

impl Taken {
    /// Goes past a piece.
    fn take(&mut self, piece: Piece) -> Result<(), NoMemory>
        ensures tokens { IfOk result (λ _. self.new.tokens ≡ self.old.tokens ++ token_in self.old.gap piece) }
        ensures opened { IfOk result (λ _. reverse self.new.opened.items ≡ open_next (reverse self.old.opened.items) piece) }
        ensures gap { IfOk result (λ _. self.new.gap ≡ gap_next (is_listed (reverse self.old.opened.items)) self.old.gap piece) }
    {
        let gap = self.gap;
        self.gap = gap_next(is_listed(&self.opened), gap, &piece);
        if pass_piece(&mut self.opened, &piece).is_err() {
            let_go(piece);
            return Err(NoMemory);
        }
        keep(&mut self.tokens, gap, piece)
    }
}

/// The tokens of bytes up to their end or the first fault, and that fault.
#[derive(Drop)]
pub struct Read {
    pub tokens: KTokens,
    pub fault: Option<LexFault>,
}

/// The tokens of bytes, up to their end or the first fault.
pub fn reading_of(alloc: Global, bytes: &[u8]) -> Result<Read, NoMemory>
    requires { length bytes.now < 2 ^ 32 - 1 }
    ensures reading { IfOk result (λ r. Reading bytes.now r.tokens r.fault) }
    ensures few { IfOk result (λ r. length r.tokens ≤ length bytes.now + 1) }
{
    let mut taken = Taken {
        tokens: KTokens::new(alloc),
        opened: Vec::new(alloc),
        gap: Gap::Plain,
    };
    let mut at = start();
    'pieces: loop {
        let found = piece_of(alloc, bytes, at)?;
        let next = found.next;
        let fault = fault_of(&found.piece);
        let last = is_last(&found.piece);
        taken.take(found.piece)?;
        if last {
            return Ok(Read {
                tokens: taken.tokens,
                fault,
            });
        }
        at = next;
    }
}
