// Names of types, and beginnings of names.
ghost use Rattle.std.specs.Prelude.{◌≡◌, IfOk};
ghost use Rattle.java_scopes.specs.Scopes as s;

use crate::context::Context;
use crate::states::put_fault;
use j2k_base::{Name, NoMemory, Text};
use java_scopes::{Current, State};
use java_tree::Position;
use java_type_names::Place;
use std::alloc::Global;

/// What the beginning of a name means.
fn place_found<C: Context>(
    context: &C,
    state: &mut State,
    at: Position,
    place: Place,
) -> Result<(), NoMemory>
    ensures { IfOk result (λ u. state.new ≡ s.begun_by (C.setting context.now) state.old at place) }
{
    match place {
        Place::Lost(lost) => put_fault(context, state, lost, 1),
        Place::Ambiguous(lost) => put_fault(context, state, lost, 4),
        place => {
            state.current = Current::Begun(place, at);
            Ok(())
        }
    }
}

/// A name begins.
pub(crate) fn begin<C: Context>(
    alloc: Global,
    context: &C,
    state: &mut State,
    name: &Name,
    at: Position,
    place: Place,
) -> Result<(), NoMemory>
    ensures { IfOk result (λ u. state.new ≡ s.begun (C.setting context.now) state.old name.now at place) }
{
    state.text = Text::from_str(alloc, name.as_str())?;
    place_found(context, state, at, place)
}

/// A name goes on behind a dot, of which the text before means a place.
pub(crate) fn extend<C: Context>(
    alloc: Global,
    context: &C,
    state: &mut State,
    place: Place,
    name: &Name,
    at: Position,
) -> Result<(), NoMemory>
    ensures { IfOk result (λ u. state.new ≡ s.extended (C.setting context.now) state.old place name.now at) }
{
    let next = context.next_part(alloc, &state.text, place, name, at)?;
    state.text.push_str(".")?;
    state.text.push_str(name.as_str())?;
    place_found(context, state, at, next)
}

/// The first identifier of the name of a type.
pub(crate) fn type_first<C: Context>(
    alloc: Global,
    context: &C,
    state: &mut State,
    name: &Name,
    at: Position,
) -> Result<(), NoMemory>
    ensures { IfOk result (λ u. state.new ≡ s.type_first (C.setting context.now) state.old name.now at) }
{
    if !context.is_type_parameter(name) {
        let place = context.first_type(alloc, name, at)?;
        return begin(alloc, context, state, name, at, place);
    }
    if context.is_static() {
        return put_fault(context, state, at, 1);
    }
    state.current = Current::Value;
    Ok(())
}

/// A later identifier of the name of a type.
pub(crate) fn type_part<C: Context>(
    alloc: Global,
    context: &C,
    state: &mut State,
    name: &Name,
    at: Position,
) -> Result<(), NoMemory>
    ensures { IfOk result (λ u. state.new ≡ s.type_part (C.setting context.now) state.old name.now at state.old.current) }
{
    match state.current {
        Current::Begun(place, _) => extend(alloc, context, state, place, name, at),
        Current::Value => put_fault(context, state, at, 1),
        Current::This | Current::Super | Current::Unknown => {
            state.current = Current::Unknown;
            Ok(())
        }
    }
}

/// The name of a type ends.
pub(crate) fn end_type<C: Context>(context: &C, state: &mut State) -> Result<(), NoMemory>
    ensures { IfOk result (λ u. state.new ≡ s.type_end (C.setting context.now) state.old state.old.current) }
{
    if let Current::Begun(Place::Package, last) = state.current {
        put_fault(context, state, last, 1)?;
    }
    state.current = Current::Value;
    Ok(())
}
