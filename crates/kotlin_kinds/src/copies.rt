// Copies of tokens.

ghost use Rattle.std.specs.Prelude.{◌≡◌, IfOk};

use j2k_base::{Name, NoMemory, Units};
use kotlin_tree::{KToken, TokenKind};
use std::alloc::Global;

fn copy_kind(alloc: Global, kind: &TokenKind) -> Result<TokenKind, NoMemory>
    ensures { IfOk result (λ copy. copy ≡ kind.now) }
{
    match kind {
        TokenKind::Mark(mark) => Ok(TokenKind::Mark(*mark)),
        TokenKind::Keyword(word) => Ok(TokenKind::Keyword(*word)),
        TokenKind::Word(word) => Ok(TokenKind::Word(*word)),
        TokenKind::Name(name) => Ok(TokenKind::Name(Name::from_str(alloc, name.as_str())?)),
        TokenKind::Integer(number) => Ok(TokenKind::Integer(*number)),
        TokenKind::Long(number) => Ok(TokenKind::Long(*number)),
        TokenKind::Character(unit) => Ok(TokenKind::Character(*unit)),
        TokenKind::Text(units) => {
            let copy = Vec::from_slice(alloc, units.as_slice())?;
            Ok(TokenKind::Text(Units::from_vec(copy)))
        }
        TokenKind::End => Ok(TokenKind::End),
    }
}

pub fn copy_token(alloc: Global, token: &KToken) -> Result<KToken, NoMemory>
    ensures { IfOk result (λ copy. copy ≡ token.now) }
{
    let kind = copy_kind(alloc, &token.kind)?;
    Ok(KToken {
        kind,
        gap: token.gap,
        position: token.position,
    })
}
