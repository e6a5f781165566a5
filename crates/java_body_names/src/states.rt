// Faults, and what was read last.
ghost use Rattle.std.specs.Prelude.{◌≡◌, IfOk};
ghost use Rattle.java_scopes.specs.Scopes as s;

use crate::context::Context;
use crate::frames::in_arguments;
use j2k_base::{NoMemory, Text};
use java_classes::NameFault;
use java_scopes::{Current, Opened, State};
use java_tables::NameMap;
use java_tree::Position;
use sqlite_items::Items;
use std::alloc::Global;

/// Before a body.
pub(crate) fn first(alloc: Global) -> State
    ensures { result ≡ s.first }
{
    State {
        locals: NameMap::new(alloc),
        frames: Items::new(alloc),
        current: Current::Value,
        text: Text::new(alloc),
        faults: Items::new(alloc),
    }
}

pub(crate) fn put_fault<C: Context>(
    context: &C,
    state: &mut State,
    at: Position,
    number: u8,
) -> Result<(), NoMemory>
    ensures { IfOk result (λ u. state.new ≡ s.at_fault (C.setting context.now) state.old at number) }
{
    let unit = context.unit();
    state.faults.push(NameFault { unit, at, number })?;
    state.current = Current::Unknown;
    Ok(())
}

/// A fault at a place, where there is one.
pub(crate) fn put_where<C: Context>(
    context: &C,
    state: &mut State,
    is: bool,
    at: Position,
    number: u8,
) -> Result<(), NoMemory>
    ensures { IfOk result (λ u. state.new ≡ s.fault_where (C.setting context.now) is at number state.old) }
{
    if is {
        put_fault(context, state, at, number)
    } else {
        Ok(())
    }
}

/// Whether there is no object of the class (JLS 8.1.3, 8.8.7.1).
pub(crate) fn has_no_object<C: Context>(context: &C, frames: &[Opened]) -> bool
    ensures { result ≡ s.has_no_object (C.setting context.now) frames.now }
{
    context.is_static() || in_arguments(frames)
}
