// Members, and what is a value.
ghost use Rattle.std.specs.Prelude.{◌≡◌, IfOk};
ghost use Rattle.java_scopes.specs.Scopes as s;

use crate::context::Context;
use crate::states::{has_no_object, put_fault};
use crate::types::{begin, extend};
use j2k_base::{Name, NoMemory};
use java_scopes::{Answer, Current, State};
use java_tree::Position;
use java_type_names::Place;
use std::alloc::Global;

/// A member by what a look-up of its name found.
pub(crate) fn answer<C: Context>(
    context: &C,
    state: &mut State,
    at: Position,
    has_no_object: bool,
    answer: Answer,
) -> Result<(), NoMemory>
    ensures { IfOk result (λ u. state.new ≡ s.answered (C.setting context.now) state.old at has_no_object answer) }
{
    match answer {
        Answer::Absent => put_fault(context, state, at, 1),
        Answer::Several => put_fault(context, state, at, 4),
        Answer::Instance if has_no_object => put_fault(context, state, at, 1),
        Answer::Static | Answer::Instance => {
            state.current = Current::Value;
            Ok(())
        }
        Answer::Open => {
            state.current = Current::Unknown;
            Ok(())
        }
    }
}

/// A field in scope, else a class, else a package.
fn field_or_type<C: Context>(
    alloc: Global,
    context: &C,
    state: &mut State,
    name: &Name,
    at: Position,
    found: Answer,
) -> Result<(), NoMemory>
    ensures { IfOk result (λ u. state.new ≡ s.field_or_type (C.setting context.now) state.old name.now at found) }
{
    match found {
        Answer::Absent => {
            let place = context.first_type(alloc, name, at)?;
            begin(alloc, context, state, name, at, place)
        }
        found => {
            let is_missing = has_no_object(context, state.frames.as_slice());
            answer(context, state, at, is_missing, found)
        }
    }
}

/// The first identifier where an expression may stand.
pub(crate) fn expression<C: Context>(
    alloc: Global,
    context: &C,
    state: &mut State,
    name: &Name,
    at: Position,
) -> Result<(), NoMemory>
    ensures { IfOk result (λ u. state.new ≡ s.expression (C.setting context.now) state.old name.now at) }
{
    if state.locals.get(name.as_str()).is_some() {
        state.current = Current::Value;
        return Ok(());
    }
    let found = context.field(alloc, name)?;
    field_or_type(alloc, context, state, name, at, found)
}

/// A field, or a part of a name, behind what was read last.
pub(crate) fn selected<C: Context>(
    alloc: Global,
    context: &C,
    state: &mut State,
    name: &Name,
    at: Position,
) -> Result<(), NoMemory>
    ensures { IfOk result (λ u. state.new ≡ s.selected (C.setting context.now) state.old name.now at state.old.current) }
{
    match state.current {
        Current::Value | Current::Unknown => Ok(()),
        Current::This => {
            let found = context.field(alloc, name)?;
            answer(context, state, at, false, found)
        }
        Current::Begun(Place::Package, _) => extend(
            alloc,
            context,
            state,
            Place::Package,
            name,
            at,
        ),
        Current::Begun(Place::Class(class), _) => {
            let found = context.class_field(alloc, class, name)?;
            answer(context, state, at, true, found)
        }
        Current::Super | Current::Begun(..) => {
            state.current = Current::Unknown;
            Ok(())
        }
    }
}

/// A method that is called on what was read last.
fn method_of<C: Context>(
    alloc: Global,
    context: &C,
    state: &mut State,
    name: &Name,
    at: Position,
) -> Result<(), NoMemory>
    ensures { IfOk result (λ u. state.new ≡ s.selected_method (C.setting context.now) state.old name.now at state.old.current) }
{
    match state.current {
        Current::This => {
            let found = context.method(alloc, name)?;
            answer(context, state, at, false, found)
        }
        Current::Begun(Place::Package, last) => put_fault(context, state, last, 1),
        Current::Begun(Place::Class(class), _) => {
            let found = context.class_method(alloc, class, name)?;
            answer(context, state, at, true, found)
        }
        Current::Value | Current::Unknown | Current::Super | Current::Begun(..) => {
            state.current = Current::Value;
            Ok(())
        }
    }
}

/// Whether a method of the name isn't built yet.
fn is_later(name: &Name) -> bool
    ensures { result ≡ s.is_later name.now }
{
    name.as_bytes() == "wait".as_bytes()
        || name.as_bytes() == "notify".as_bytes()
        || name.as_bytes() == "notifyAll".as_bytes()
}

/// A method that is called by its simple name.
pub(crate) fn method<C: Context>(
    alloc: Global,
    context: &C,
    state: &mut State,
    name: &Name,
    at: Position,
) -> Result<(), NoMemory>
    ensures { IfOk result (λ u. state.new ≡ s.simple_call (C.setting context.now) state.old name.now at) }
{
    if is_later(name) {
        return put_fault(context, state, at, 0);
    }
    let is_missing = has_no_object(context, state.frames.as_slice());
    let found = context.method(alloc, name)?;
    answer(context, state, at, is_missing, found)
}

pub(crate) fn selected_method<C: Context>(
    alloc: Global,
    context: &C,
    state: &mut State,
    name: &Name,
    at: Position,
) -> Result<(), NoMemory>
    ensures { IfOk result (λ u. state.new ≡ s.selected_call (C.setting context.now) state.old name.now at) }
{
    if is_later(name) {
        return put_fault(context, state, at, 0);
    }
    method_of(alloc, context, state, name, at)
}

pub(crate) fn super_method<C: Context>(
    alloc: Global,
    context: &C,
    state: &mut State,
    name: &Name,
    at: Position,
) -> Result<(), NoMemory>
    ensures { IfOk result (λ u. state.new ≡ s.super_call (C.setting context.now) state.old name.now at) }
{
    if is_later(name) {
        return put_fault(context, state, at, 0);
    }
    let found = context.super_method(alloc, name)?;
    answer(context, state, at, false, found)
}

/// What was read last is used as a value.
pub(crate) fn end_value<C: Context>(context: &C, state: &mut State) -> Result<(), NoMemory>
    ensures { IfOk result (λ u. state.new ≡ s.used (C.setting context.now) state.old state.old.current) }
{
    match state.current {
        Current::Begun(_, last) => put_fault(context, state, last, 1),
        _ => {
            state.current = Current::Value;
            Ok(())
        }
    }
}
