//! What runs spell.

ghost use Rattle.std.specs.Prelude.{◌≡◌, ◌<◌, ◌+◌, ◌^◌, ◌++◌, ◌∷◌, [], IfOk, length};
ghost use Rattle.java_tree.specs.Seen.{token_seen};
ghost use Rattle.java_token_cursor.specs.Shown.{shown};
ghost use Rattle.java_type_parser.specs.Gives.{Gives, Always};
ghost use Rattle.java_modifier_rules.specs.Fits.{owner_seen};
ghost use Rattle.java_fault_grammar.specs.Forms as f;
ghost use Rattle.java_fault_finder.specs.Walks.{are_constants, does, fitting, lone_curly, opened_of, is_enum, opened_seen, passed_at, room, same, state_seen};
ghost use Rattle.java_fault_finder.specs.declared.states.Passed.TheVariants as p;

use crate::members::{are_constants, is_bodied, is_declared};
use crate::states::{Opened, Passed, Spot, State};
use j2k_base::NoMemory;
use java_body_cuts::{before_curly, goes_declared, goes_type, is_end, semicolon};
use java_member_grammar::{JHome, JTypeHead};
use java_member_parser::{import_line, package_line, type_head};
use java_modifier_rules::{Owner, home_of, type_fits};
use java_token_cursor::{Piece, Pieces, open_curly};
use java_tree::{JToken, MAX_DEPTH, Mark, Position, TokenKind};
use java_type_parser::let_go;
use std::alloc::Global;

/// Whether a `{` is all.
#[tactic(auto, using(crate::proofs::Doing::lone))]
fn lone_curly<'a>(pieces: Pieces<'a>) -> bool
    ensures { result ≡ lone_curly (shown pieces.now) }
{
    match open_curly(pieces) {
        Some((_, rest)) => is_end(rest),
        None => false,
    }
}

/// What the head of a type does.
fn opens(head: JTypeHead) -> Passed
    ensures { result ≡ p.Opens (opened_of head) (is_enum head) }
{
    match head {
        JTypeHead::Class(_, _, name, _, _, _, _) => Passed::Opens(Opened::Class(name), false),
        JTypeHead::Interface(_, _, _, _, _, _) => Passed::Opens(Opened::Interface, false),
        JTypeHead::Enum(_, _, name, _, _) => Passed::Opens(Opened::Class(name), true),
    }
}

/// What the head of a type does, where it may stand in the place.
fn fitting(place: JHome, head: JTypeHead) -> Option<Passed>
    ensures { result ≡ fitting place head }
{
    if !type_fits(place, &head) {
        let_go(head);
        return None;
    }
    Some(opens(head))
}

/// A type's head with its `{`.
#[tactic(auto, using(crate::proofs::Doing::heads))]
fn head_form<'a>(alloc: Global, place: JHome, text: Pieces<'a>) -> Result<Option<Passed>, NoMemory>
    ensures { Gives same Always (does (f.head_form place (shown text.now))) result }
{
    let (before, after) = before_curly(text);
    if !lone_curly(after) {
        return Ok(None);
    }
    match type_head(alloc, before, MAX_DEPTH)? {
        Some(head) => Ok(fitting(place, head)),
        None => Ok(None),
    }
}

/// A `;` alone.
#[tactic(auto, using(crate::proofs::Doing::lines))]
fn semicolon_form<'a>(text: Pieces<'a>) -> Option<Passed>
    ensures { result ≡ does (f.semicolon_form (shown text.now)) }
{
    match semicolon(text) {
        Some((_, rest)) if is_end(rest) => Some(Passed::Member),
        _ => None,
    }
}

/// The line of an import, or a `;` alone.
#[tactic(auto, using(crate::proofs::Doing::lines))]
fn import_form<'a>(alloc: Global, text: Pieces<'a>) -> Result<Option<Passed>, NoMemory>
    ensures { Gives same Always (does (f.import_form (shown text.now))) result }
{
    match import_line(alloc, text)? {
        Some(_) => Ok(Some(Passed::Line)),
        None => Ok(semicolon_form(text)),
    }
}

/// The line of a package or an import, or a `;` alone.
#[tactic(auto, using(crate::proofs::Doing::lines))]
fn package_form<'a>(alloc: Global, text: Pieces<'a>) -> Result<Option<Passed>, NoMemory>
    ensures { Gives same Always (does (f.package_form (shown text.now))) result }
{
    match package_line(alloc, text)? {
        Some(_) => Ok(Some(Passed::Line)),
        None => import_form(alloc, text),
    }
}

/// First in a file.
#[tactic(auto, using(crate::proofs::Doing::outside))]
fn first_form<'a>(alloc: Global, text: Pieces<'a>) -> Result<Option<Passed>, NoMemory>
    ensures { Gives same Always (does (f.outside_form f.package_form (shown text.now))) result }
{
    if goes_type(text) {
        head_form(alloc, JHome::File, text)
    } else {
        package_form(alloc, text)
    }
}

/// Behind lines alone.
#[tactic(auto, using(crate::proofs::Doing::outside))]
fn line_form<'a>(alloc: Global, text: Pieces<'a>) -> Result<Option<Passed>, NoMemory>
    ensures { Gives same Always (does (f.outside_form f.import_form (shown text.now))) result }
{
    if goes_type(text) {
        head_form(alloc, JHome::File, text)
    } else {
        import_form(alloc, text)
    }
}

/// Elsewhere outside of types.
#[tactic(auto, using(crate::proofs::Doing::outside))]
fn top_form<'a>(alloc: Global, text: Pieces<'a>) -> Result<Option<Passed>, NoMemory>
    ensures { Gives same Always (does (f.outside_form f.semicolon_form (shown text.now))) result }
{
    if goes_type(text) {
        head_form(alloc, JHome::File, text)
    } else {
        Ok(semicolon_form(text))
    }
}

/// The `}` that the reader of constants asks for behind them.
fn end_token() -> JToken
    ensures { token_seen result ≡ f.end }
{
    JToken {
        kind: TokenKind::Mark(Mark::CloseCurly),
        position: Position {
            offset: 0,
            line: 0,
            column: 0,
        },
    }
}

/// The pieces with a token behind them.
#[tactic(auto, using(crate::proofs::Doing::behind))]
fn with_token<'a>(
    alloc: Global,
    pieces: Pieces<'a>,
    token: &'a JToken,
) -> Result<Vec<Piece<'a>>, NoMemory>
    ensures same { IfOk result (λ v. shown v.items ≡ shown pieces.now ++ token_seen token.now ∷ []) }
    ensures long { IfOk result (λ v. length v.items ≡ length pieces.now + 1) }
{
    let mut found = Vec::from_slice(alloc, pieces)?;
    match found.push(Piece::Token(token)) {
        Ok(()) => Ok(found),
        Err(error) => {
            let_go(found);
            Err(error.into())
        }
    }
}

impl Opened {
    /// Whose the members of the body are.
    fn owner(&self) -> Owner<'_>
        ensures { owner_seen result ≡ opened_seen self.now }
    {
        match self {
            Opened::Class(name) => Owner::Class(Some(name)),
            Opened::Interface => Owner::Interface,
        }
    }
}

/// Whether the pieces are the constants of an enum, where the token stands behind them.
fn are_constants_before<'a>(
    alloc: Global,
    text: Pieces<'a>,
    end: &'a JToken,
) -> Result<bool, NoMemory>
    requires { length text.now + 1 < 2 ^ 32 }
    ensures { IfOk result (λ b. b ≡ are_constants (shown text.now ++ token_seen end.now ∷ [])) }
{
    let pieces = with_token(alloc, text, end)?;
    are_constants(alloc, pieces.as_slice())
}

/// The constants of an enum.
#[tactic(auto, using(crate::proofs::Doing::asks))]
fn constants_form<'a>(alloc: Global, text: Pieces<'a>) -> Result<Option<Passed>, NoMemory>
    requires { length text.now + 1 < 2 ^ 32 }
    ensures { Gives same Always (does (f.constants_form (shown text.now))) result }
{
    let end = end_token();
    let found = are_constants_before(alloc, text, &end);
    let_go(end);
    if found? {
        Ok(Some(Passed::Constants))
    } else {
        Ok(None)
    }
}

/// A member with a `;` behind it.
#[tactic(auto, using(crate::proofs::Doing::asks))]
fn declared_form<'a>(
    alloc: Global,
    owner: Owner<'_>,
    text: Pieces<'a>,
) -> Result<Option<Passed>, NoMemory>
    requires { length text.now < 2 ^ 32 }
    ensures { Gives same Always (does (f.declared_form (owner_seen owner.entry) (shown text.now))) result }
{
    if is_declared(alloc, owner, text)? {
        Ok(Some(Passed::Member))
    } else {
        Ok(None)
    }
}

/// A member with a block behind it.
#[tactic(auto, using(crate::proofs::Doing::asks))]
fn bodied_form<'a>(
    alloc: Global,
    owner: Owner<'_>,
    text: Pieces<'a>,
) -> Result<Option<Passed>, NoMemory>
    requires { length text.now < 2 ^ 32 }
    ensures { Gives same Always (does (f.bodied_form (owner_seen owner.entry) (shown text.now))) result }
{
    if is_bodied(alloc, owner, text)? {
        Ok(Some(Passed::Member))
    } else {
        Ok(None)
    }
}

/// A member, or the head of a type among members.
#[tactic(auto, using(crate::proofs::Doing::inside))]
fn inside_form<'a>(
    alloc: Global,
    owner: Owner<'_>,
    text: Pieces<'a>,
) -> Result<Option<Passed>, NoMemory>
    requires { length text.now < 2 ^ 32 }
    ensures { Gives same Always (does (f.inside_form (owner_seen owner.entry) (shown text.now))) result }
{
    if goes_declared(text) {
        return declared_form(alloc, owner, text);
    }
    if goes_type(text) {
        return head_form(alloc, home_of(owner), text);
    }
    bodied_form(alloc, owner, text)
}

/// In the body of a type.
#[tactic(auto, using(crate::proofs::Doing::around))]
fn member_form<'a>(
    alloc: Global,
    state: &State,
    text: Pieces<'a>,
) -> Result<Option<Passed>, NoMemory>
    requires { length text.now < 2 ^ 32 }
    ensures { Gives same Always (does (f.member_form (state_seen state.now).around (shown text.now))) result }
{
    let Some((innermost, _)) = state.around.as_slice().split_last() else {
        return Ok(None);
    };
    inside_form(alloc, innermost.owner(), text)
}

/// What a run does.
#[tactic(auto, unfolding(crate::specs::Walks::passed_at))]
pub fn form<'a>(alloc: Global, state: &State, text: Pieces<'a>) -> Result<Option<Passed>, NoMemory>
    requires { length text.now + room (state_seen state.now).spot < 2 ^ 32 }
    ensures { Gives same Always (passed_at (state_seen state.now) (shown text.now)) result }
{
    match state.spot {
        Spot::Start => first_form(alloc, text),
        Spot::Lines => line_form(alloc, text),
        Spot::Top => top_form(alloc, text),
        Spot::Constants => constants_form(alloc, text),
        Spot::Member => member_form(alloc, state, text),
    }
}
