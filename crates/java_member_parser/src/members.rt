//! Members before their `;` or their block.

ghost use Rattle.std.specs.Prelude.{◌≡◌};
ghost use Rattle.java_token_cursor.specs.Shown.{shown};
ghost use Rattle.java_type_parser.specs.Gives.{Gives, Always};
ghost use Rattle.java_member_grammar.specs.Reading as m;
ghost use Rattle.java_declaration_parser.specs.Found.{found, same};
ghost use Rattle.java_member_parser.specs.Steps.{called_constructor, called_method, type_member, void_method, whole_member};

use crate::begins::{begins_call, only_static};
use crate::modifiers::modifiers;
use crate::params::type_params;
use crate::parts::{formals, throws};
use j2k_base::NoMemory;
use java_declaration_parser::{at_end, declaration_of};
use java_member_grammar::{JMemberHead, JModifier, JResult, JTypeParams};
use java_token_cursor::{Head, Pieces, first};
use java_tree::{JParam, JType, Keyword, Position};
use java_type_parser::{found_or_let_go, ident, let_go, read_type};
use sqlite_items::Items;
use std::alloc::Global;

/// A constructor behind its modifiers.
#[tactic(auto, unfolding(java_member_grammar::specs::Reading::constructor))]
fn constructor<'a>(
    alloc: Global,
    mods: Items<JModifier>,
    pieces: Pieces<'a>,
    depth: usize,
) -> Result<Option<(JMemberHead, Pieces<'a>)>, NoMemory>
    ensures { Gives found Always (called_constructor depth mods (shown pieces.now)) result }
{
    let (name, rest) = found_or_let_go!(ident(alloc, pieces), mods);
    let (params, rest) = found_or_let_go!(formals(alloc, rest, depth), mods, name);
    let (faults, rest) = found_or_let_go!(throws(alloc, rest, depth), mods, name, params);
    let JParam { name, at } = name;
    let head = JMemberHead::Constructor(mods, name, at, params, faults);
    Ok(Some((head, rest)))
}

/// A method behind its name.
#[tactic(auto, unfolding(java_member_grammar::specs::Reading::method))]
fn method<'a>(
    alloc: Global,
    mods: Items<JModifier>,
    params: Option<JTypeParams>,
    kind: JResult,
    name: JParam,
    pieces: Pieces<'a>,
    depth: usize,
) -> Result<Option<(JMemberHead, Pieces<'a>)>, NoMemory>
    ensures { Gives found Always (m.method depth mods params kind name (shown pieces.now)) result }
{
    let (parameters, rest) = found_or_let_go!(
        formals(alloc, pieces, depth),
        mods,
        params,
        kind,
        name
    );
    let (faults, rest) = found_or_let_go!(
        throws(alloc, rest, depth),
        mods,
        params,
        kind,
        name,
        parameters
    );
    let JParam { name, at } = name;
    let head = JMemberHead::Method(mods, params, kind, name, at, parameters, faults);
    Ok(Some((head, rest)))
}

/// A method behind the type that it gives.
fn called_method<'a>(
    alloc: Global,
    mods: Items<JModifier>,
    params: Option<JTypeParams>,
    kind: JType,
    pieces: Pieces<'a>,
    depth: usize,
) -> Result<Option<(JMemberHead, Pieces<'a>)>, NoMemory>
    ensures { Gives found Always (called_method depth mods params kind (shown pieces.now)) result }
{
    let (name, rest) = found_or_let_go!(ident(alloc, pieces), mods, params, kind);
    method(alloc, mods, params, JResult::Type(kind), name, rest, depth)
}

/// A method behind its `void`.
fn void_method<'a>(
    alloc: Global,
    mods: Items<JModifier>,
    params: Option<JTypeParams>,
    at: Position,
    pieces: Pieces<'a>,
    depth: usize,
) -> Result<Option<(JMemberHead, Pieces<'a>)>, NoMemory>
    ensures { Gives found Always (void_method depth mods params at (shown pieces.now)) result }
{
    let (name, rest) = found_or_let_go!(ident(alloc, pieces), mods, params);
    method(alloc, mods, params, JResult::Void(at), name, rest, depth)
}

/// A field behind its type, with values at a depth of less than `value_depth`.
#[tactic(auto, unfolding(java_member_grammar::specs::Reading::field))]
fn field<'a>(
    alloc: Global,
    mods: Items<JModifier>,
    kind: JType,
    pieces: Pieces<'a>,
    value_depth: usize,
) -> Result<Option<(JMemberHead, Pieces<'a>)>, NoMemory>
    ensures { Gives found Always (m.field value_depth mods kind (shown pieces.now)) result }
{
    let (names, rest) = found_or_let_go!(
        declaration_of(alloc, value_depth, None, kind, pieces),
        mods
    );
    Ok(Some((JMemberHead::Field(mods, names), rest)))
}

/// A member behind its type.
#[tactic(auto, unfolding(java_member_grammar::specs::Reading::typed_member))]
fn typed_member<'a>(
    alloc: Global,
    mods: Items<JModifier>,
    params: Option<JTypeParams>,
    kind: JType,
    pieces: Pieces<'a>,
    depth: usize,
    value_depth: usize,
) -> Result<Option<(JMemberHead, Pieces<'a>)>, NoMemory>
    ensures { Gives found Always (m.typed_member depth value_depth mods params kind (shown pieces.now)) result }
{
    if begins_call(pieces) {
        return called_method(alloc, mods, params, kind, pieces, depth);
    }
    match params {
        Some(params) => {
            let_go(mods);
            let_go(params);
            let_go(kind);
            Ok(None)
        }
        None => field(alloc, mods, kind, pieces, value_depth),
    }
}

/// A member that begins with its type.
fn type_member<'a>(
    alloc: Global,
    mods: Items<JModifier>,
    params: Option<JTypeParams>,
    pieces: Pieces<'a>,
    depth: usize,
    value_depth: usize,
) -> Result<Option<(JMemberHead, Pieces<'a>)>, NoMemory>
    ensures { Gives found Always (type_member depth value_depth mods params (shown pieces.now)) result }
{
    let (kind, rest) = found_or_let_go!(read_type(alloc, pieces, depth), mods, params);
    typed_member(alloc, mods, params, kind.tree, rest, depth, value_depth)
}

/// A member behind its type parameters.
fn result_member<'a>(
    alloc: Global,
    mods: Items<JModifier>,
    params: Option<JTypeParams>,
    pieces: Pieces<'a>,
    depth: usize,
    value_depth: usize,
) -> Result<Option<(JMemberHead, Pieces<'a>)>, NoMemory>
    ensures { Gives found Always (m.result_member depth value_depth mods params (shown pieces.now)) result }
{
    match first(pieces) {
        Head::Word(Keyword::Void, at, rest) => void_method(alloc, mods, params, at, rest, depth),
        _ => type_member(alloc, mods, params, pieces, depth, value_depth),
    }
}

/// A method or a field behind its modifiers.
#[tactic(auto, unfolding(java_member_grammar::specs::Reading::declared_member))]
fn declared_member<'a>(
    alloc: Global,
    mods: Items<JModifier>,
    pieces: Pieces<'a>,
    depth: usize,
    value_depth: usize,
) -> Result<Option<(JMemberHead, Pieces<'a>)>, NoMemory>
    ensures { Gives found Always (m.declared_member depth value_depth mods (shown pieces.now)) result }
{
    let (params, rest) = found_or_let_go!(type_params(alloc, pieces, depth), mods);
    result_member(alloc, mods, params, rest, depth, value_depth)
}

/// A member behind its modifiers.
#[tactic(auto, unfolding(java_member_grammar::specs::Reading::member_of))]
fn member_of<'a>(
    alloc: Global,
    mods: Items<JModifier>,
    pieces: Pieces<'a>,
    depth: usize,
    value_depth: usize,
) -> Result<Option<(JMemberHead, Pieces<'a>)>, NoMemory>
    ensures { Gives found Always (m.member_of depth value_depth mods (shown pieces.now)) result }
{
    if begins_call(pieces) {
        constructor(alloc, mods, pieces, depth)
    } else {
        declared_member(alloc, mods, pieces, depth, value_depth)
    }
}

/// The member that the pieces are, with its modifiers.
#[tactic(auto, using(crate::proofs::Rules::ends))]
fn whole_member<'a>(
    alloc: Global,
    pieces: Pieces<'a>,
    depth: usize,
    value_depth: usize,
) -> Result<Option<JMemberHead>, NoMemory>
    ensures { Gives same Always (whole_member depth value_depth (shown pieces.now)) result }
{
    let (mods, rest) = modifiers(alloc, pieces)?;
    let Some((head, rest)) = member_of(alloc, mods, rest, depth, value_depth)? else {
        return Ok(None);
    };
    if at_end(rest) {
        Ok(Some(head))
    } else {
        let_go(head);
        Ok(None)
    }
}

/// The head before a `;`.
#[tactic(auto, unfolding(java_member_grammar::specs::Reading::before_semicolon))]
pub fn semicolon_read<'a>(
    alloc: Global,
    pieces: Pieces<'a>,
    depth: usize,
    value_depth: usize,
) -> Result<Option<JMemberHead>, NoMemory>
    ensures { Gives same Always (m.before_semicolon depth value_depth (shown pieces.now)) result }
{
    match first(pieces) {
        Head::End => Ok(Some(JMemberHead::Empty)),
        _ => whole_member(alloc, pieces, depth, value_depth),
    }
}

/// The head before a block.
#[tactic(auto, using(crate::proofs::Rules::blocks))]
pub fn block_read<'a>(
    alloc: Global,
    pieces: Pieces<'a>,
    depth: usize,
    value_depth: usize,
) -> Result<Option<JMemberHead>, NoMemory>
    ensures { Gives same Always (m.before_block depth value_depth (shown pieces.now)) result }
{
    if at_end(pieces) {
        return Ok(Some(JMemberHead::Initializer(None)));
    }
    if let Some(at) = only_static(pieces) {
        return Ok(Some(JMemberHead::Initializer(Some(at))));
    }
    whole_member(alloc, pieces, depth, value_depth)
}
