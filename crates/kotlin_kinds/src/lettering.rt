// Tokens with their kinds.

ghost use Rattle.std.specs.Prelude.{◌≡◌, ◌<◌, ◌-◌, length, drop, IfOk, true, false};
ghost use Rattle.kotlin_grammar.specs.Ahead.{blank_before as blank_before_of, without_line as without_line_of, gap_before as gap_before_of, letter_by, letters as letters_of};

use crate::copies::copy_token;
use crate::kinds::kind_of;
use grammar::Stack;
use j2k_base::NoMemory;
use kotlin_grammar::{Kind, Letter};
use kotlin_tree::{Gap, KToken};
use std::alloc::Global;

fn blank_before(kind: Kind) -> bool
    ensures { result ≡ blank_before_of kind }
{
    match kind {
        Kind::Dot => true,
        Kind::Colon => true,
        Kind::AndAnd => true,
        Kind::OrOr => true,
        Kind::OpenCurly => true,
        Kind::OpenParameters => true,
        Kind::CloseCurly => true,
        Kind::Catch => true,
        Kind::FinallyWord => true,
        Kind::Else => true,
        _ => false,
    }
}

fn without_line(gap: Gap) -> Gap
    ensures { result ≡ without_line_of gap }
{
    match gap {
        Gap::Plain => Gap::Plain,
        Gap::Line => Gap::Plain,
        Gap::Semicolon => Gap::Semicolon,
    }
}

fn gap_before(kind: Kind, gap: Gap) -> Gap
    ensures { result ≡ gap_before_of kind gap }
{
    if blank_before(kind) {
        without_line(gap)
    } else {
        gap
    }
}

fn letter(kind: Kind, token: KToken) -> Letter
    ensures { result ≡ letter_by kind token }
{
    let gap = gap_before(kind, token.gap);
    let position = token.position;
    Letter {
        kind,
        token: KToken {
            kind: token.kind,
            gap,
            position,
        },
    }
}

/// The tokens with their kinds, the first on top.
pub fn letters(alloc: Global, tokens: &[KToken]) -> Result<Stack<Letter>, NoMemory>
    requires { length tokens.now < 4294967296 }
    ensures { IfOk result (λ found. found ≡ letters_of tokens.now) }
{
    let mut letters = Stack::new(alloc);
    for i in 0..tokens.len() {
        let token = copy_token(alloc, &tokens[tokens.len() - 1 - i])?;
        let kind = kind_of(&token.kind, &letters);
        letters.push(letter(kind, token))?;
    }
    Ok(letters)
}
