//! The tokens of what was written, with those of its bodies.

ghost use Rattle.std.specs.Prelude.{◌≡◌, ◌-◌, ◌++◌, [], ◌∷◌, IfOk, drop, take};
ghost use Rattle.java_tree.specs.Trees as s;
ghost use Rattle.java_tree.specs.Seen.{Token, body_tokens, expanded, kind_seen, seen, token_tokens};
ghost use Rattle.java_expr_printer.specs.Shown.{shown, written_shown};
ghost use Rattle.java_tree.specs.declared.tokens.Mark.TheVariants as m;

use crate::{Written, put_expr};
use j2k_base::{Name, NoMemory, Units};
use java_tree::{JExpr, JToken, Mark, Position, Span, TokenKind};
use std::alloc::Global;

/// A name again.
pub fn copied(alloc: Global, name: &Name) -> Result<Name, NoMemory>
    ensures { IfOk result (λ n. n ≡ name.now) }
{
    Name::from_str(alloc, name.as_str())
}

#[tactic(auto, using(crate::proofs::SpellParts::joins))]
fn put_token(out: &mut Vec<JToken>, kind: TokenKind, at: Position) -> Result<(), NoMemory>
    ensures { IfOk result (λ u. seen out.new.items ≡ seen out.old.items ++ kind_seen kind at ∷ []) }
{
    out.push(JToken { kind, position: at })?;
    Ok(())
}

/// A mark at the end of the tokens.
pub fn put_mark(out: &mut Vec<JToken>, mark: Mark, at: Position) -> Result<(), NoMemory>
    ensures { IfOk result (λ u. seen out.new.items ≡ seen out.old.items ++ Token.Sign mark at ∷ []) }
{
    put_token(out, TokenKind::Mark(mark), at)
}

fn copied_kind(alloc: Global, kind: &TokenKind) -> Result<TokenKind, NoMemory>
    ensures { IfOk result (λ copy. copy ≡ kind.now) }
{
    match kind {
        TokenKind::Mark(mark) => Ok(TokenKind::Mark(*mark)),
        TokenKind::Keyword(word) => Ok(TokenKind::Keyword(*word)),
        TokenKind::Name(name) => Ok(TokenKind::Name(copied(alloc, name)?)),
        TokenKind::Integer(n) => Ok(TokenKind::Integer(*n)),
        TokenKind::LeastInteger => Ok(TokenKind::LeastInteger),
        TokenKind::Long(n) => Ok(TokenKind::Long(*n)),
        TokenKind::LeastLong => Ok(TokenKind::LeastLong),
        TokenKind::Character(unit) => Ok(TokenKind::Character(*unit)),
        TokenKind::Text(units) => {
            let units = Vec::from_slice(alloc, units.as_slice())?;
            Ok(TokenKind::Text(Units::from_vec(units)))
        }
    }
}

#[tactic(auto, using(crate::proofs::SpellParts::joins), unfolding(java_tree::specs::Seen::seen))]
fn put_copies(alloc: Global, out: &mut Vec<JToken>, tokens: &[JToken]) -> Result<(), NoMemory>
    ensures { IfOk result (λ u. seen out.new.items ≡ seen out.old.items ++ seen tokens.entry.now) }
{
    let mut tokens = tokens;
    while let [token, more @ ..] = tokens {
        put_token(out, copied_kind(alloc, &token.kind)?, token.position)?;
        tokens = more;
    }
    Ok(())
}

/// The tokens from the number `from` to before the number `to`, as far as there are any.
fn part(file: &[JToken], from: usize, to: usize) -> &[JToken]
    ensures { result.now ≡ take (to - from) (drop from file.now) }
{
    let rest = if from < file.len() {
        &file[from..]
    } else {
        &[]
    };
    let count = to.saturating_sub(from);
    if count < rest.len() {
        &rest[..count]
    } else {
        rest
    }
}

/// A body with its braces.
#[tactic(auto, using(crate::proofs::SpellParts::joins))]
fn put_body(
    alloc: Global,
    out: &mut Vec<JToken>,
    file: &[JToken],
    body: Span,
) -> Result<(), NoMemory>
    ensures { IfOk result (λ u. seen out.new.items ≡ seen out.old.items ++ body_tokens (seen file.now) body) }
{
    put_mark(out, Mark::OpenCurly, body.opens)?;
    put_copies(alloc, out, part(file, body.from as usize, body.to as usize))?;
    put_mark(out, Mark::CloseCurly, body.closes)
}

#[tactic(auto, using(crate::proofs::SpellParts::joins))]
fn put_written(
    alloc: Global,
    out: &mut Vec<JToken>,
    file: &[JToken],
    x: &Written,
) -> Result<(), NoMemory>
    ensures { IfOk result (λ u. seen out.new.items ≡ seen out.old.items ++ token_tokens (seen file.now) (written_shown x.now)) }
{
    match x {
        Written::Token(token) => {
            put_token(out, copied_kind(alloc, &token.kind)?, token.position)
        }
        Written::Block(at, body) => {
            put_mark(out, Mark::Arrow, *at)?;
            put_body(alloc, out, file, *body)
        }
        Written::Body(at, body) => {
            put_mark(out, Mark::CloseRound, *at)?;
            put_body(alloc, out, file, *body)
        }
    }
}

#[tactic(auto, using(crate::proofs::SpellParts::joins), unfolding(crate::specs::Shown::shown, java_tree::specs::Seen::expanded))]
fn expand(
    alloc: Global,
    out: &mut Vec<JToken>,
    file: &[JToken],
    text: &[Written],
) -> Result<(), NoMemory>
    ensures { IfOk result (λ u. seen out.new.items ≡ seen out.old.items ++ expanded (seen file.now) (shown text.entry.now)) }
{
    let mut text = text;
    while let [first, more @ ..] = text {
        put_written(alloc, out, file, first)?;
        text = more;
    }
    Ok(())
}

/// The tokens of a tree, from the first to the last. Those of its bodies are copied from the file,
/// in which they are counted from 0.
#[tactic(auto, using(crate::proofs::SpellParts::joins))]
pub fn spell(alloc: Global, file: &[JToken], x: &JExpr) -> Result<Vec<JToken>, NoMemory>
    ensures { IfOk result (λ v. seen v.items ≡ expanded (seen file.now) (s.tokens x.now)) }
{
    let mut text = Vec::new(alloc);
    put_expr(alloc, &mut text, x)?;
    let mut out = Vec::new(alloc);
    expand(alloc, &mut out, file, text.as_slice())?;
    Ok(out)
}
