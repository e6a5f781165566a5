//! The tokens of a file as pieces, and lists of them in two.

ghost use Rattle.std.specs.Prelude.{◌≡◌, ◌≤◌, take, drop, length, IfOk};
ghost use Rattle.java_tree.specs.Seen.{seen};
ghost use Rattle.java_token_cursor.specs.Shown.{shown};
ghost use Rattle.java_body_cuts.specs.Cuts.{Parts, TokenParts};

use j2k_base::NoMemory;
use java_token_cursor::{Piece, Pieces};
use java_tree::JToken;
use std::alloc::Global;

#[tactic(auto, unfolding(java_tree::specs::Seen::seen))]
fn tokens_parted<'a>(tokens: &'a [JToken]) -> Option<(&'a JToken, &'a [JToken])>
    ensures { TokenParts tokens.now result }
{
    tokens.split_first()
}

/// Each token of a file as a piece of its own.
#[tactic(auto, using(crate::proofs::Tokens::listed))]
pub fn raw<'a>(alloc: Global, tokens: &'a [JToken]) -> Result<Vec<Piece<'a>>, NoMemory>
    ensures { IfOk result (λ v. shown v.items ≡ seen tokens.now) }
{
    let mut found = Vec::new(alloc);
    let mut rest = tokens;
    while let Some((token, behind)) = tokens_parted(rest) {
        found.push(Piece::Token(token))?;
        rest = behind;
    }
    Ok(found)
}

/// The first piece and what follows it.
#[tactic(auto, unfolding(java_token_cursor::specs::Shown::shown))]
pub fn parted<'a>(pieces: Pieces<'a>) -> Option<(Piece<'a>, Pieces<'a>)>
    ensures { Parts pieces.now result }
{
    let (piece, rest) = pieces.split_first()?;
    Some((*piece, rest))
}

/// The first `count` pieces, and those behind them.
#[tactic(auto, using(crate::proofs::Tokens::splits))]
pub fn split<'a>(pieces: Pieces<'a>, count: usize) -> (Pieces<'a>, Pieces<'a>)
    requires { count ≤ length pieces.now }
    ensures before { shown result.0.now ≡ take count (shown pieces.now) }
    ensures behind { shown result.1.now ≡ drop count (shown pieces.now) }
{
    pieces.split_at(count)
}
