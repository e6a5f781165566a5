// A body, one use of a name after the other.
ghost use Rattle.std.specs.Prelude.{◌≡◌, ◌++◌, IfOk};
ghost use Rattle.java_scopes.specs.Scopes as s;

use crate::context::Context;
use crate::frames::{close, has_label, in_lambda, may_break, may_continue, may_jump, open};
use crate::members::{end_value, expression, method, selected, selected_method, super_method};
use crate::states::{first, has_no_object, put_fault, put_where};
use crate::types::{end_type, type_first, type_part};
use j2k_base::{Name, NoMemory};
use java_classes::NameFault;
use java_name_uses::{Naming, Sign, Use, Word};
use java_scopes::{Current, Frame, State};
use java_tree::Position;
use sqlite_items::Items;
use std::alloc::Global;

/// A variable is declared.
fn variable<C: Context>(
    context: &C,
    state: &mut State,
    name: &Name,
    at: Position,
) -> Result<(), NoMemory>
    ensures { IfOk result (λ u. state.new ≡ s.variable (C.setting context.now) state.old name.now at) }
{
    if state.locals.declare(name.as_str(), at)? {
        state.current = Current::Value;
    } else {
        put_fault(context, state, at, 2)?;
    }
    put_where(context, state, context.is_reserved(name), at, 5)
}

/// A label is declared.
fn label<C: Context>(
    alloc: Global,
    context: &C,
    state: &mut State,
    name: &Name,
    at: Position,
) -> Result<(), NoMemory>
    ensures { IfOk result (λ u. state.new ≡ s.labeled (C.setting context.now) state.old name.now at) }
{
    let is_again = has_label(name, state.frames.as_slice());
    put_where(context, state, is_again, at, 2)?;
    let name = Name::from_str(alloc, name.as_str())?;
    open(state, Frame::Label(name))
}

fn sign<C: Context>(context: &C, state: &mut State, x: Sign) -> Result<(), NoMemory>
    ensures { IfOk result (λ u. state.new ≡ s.signed (C.setting context.now) state.old x) }
{
    match x {
        Sign::Open => open(state, Frame::Block),
        Sign::OpenLoop => open(state, Frame::Loop),
        Sign::OpenSwitch => open(state, Frame::Switch),
        Sign::OpenLambda => open(state, Frame::Lambda),
        Sign::OpenArguments => open(state, Frame::Arguments),
        Sign::Close => {
            close(state);
            Ok(())
        }
        Sign::Value => end_value(context, state),
        Sign::TypeEnd => end_type(context, state),
        Sign::Block | Sign::Skipped => Ok(()),
    }
}

/// `this` or `super`.
fn object<C: Context>(
    context: &C,
    state: &mut State,
    current: Current,
    at: Position,
) -> Result<(), NoMemory>
    ensures { IfOk result (λ u. state.new ≡ s.object (C.setting context.now) state.old current at) }
{
    if has_no_object(context, state.frames.as_slice()) {
        return put_fault(context, state, at, 1);
    }
    state.current = current;
    Ok(())
}

fn not_built<C: Context>(context: &C, state: &mut State, at: Position) -> Result<(), NoMemory>
    ensures { IfOk result (λ u. state.new ≡ s.not_built (C.setting context.now) state.old at) }
{
    put_fault(context, state, at, 0)?;
    state.current = Current::Value;
    Ok(())
}

fn word<C: Context>(context: &C, state: &mut State, x: Word, at: Position) -> Result<(), NoMemory>
    ensures { IfOk result (λ u. state.new ≡ s.worded (C.setting context.now) state.old x at) }
{
    match x {
        Word::This => object(context, state, Current::This, at),
        Word::Super => object(context, state, Current::Super, at),
        Word::Break => {
            let is_lost = !may_break(false, state.frames.as_slice());
            put_where(context, state, is_lost, at, 1)
        }
        Word::Continue => {
            let is_lost = !may_continue(false, state.frames.as_slice());
            put_where(context, state, is_lost, at, 1)
        }
        Word::Return => {
            let is_lost = !(context.may_return() || in_lambda(state.frames.as_slice()));
            put_where(context, state, is_lost, at, 1)
        }
        Word::NotBuilt => not_built(context, state, at),
    }
}

/// A jump to a label.
fn jump<C: Context>(
    context: &C,
    state: &mut State,
    needs_loop: bool,
    name: &Name,
    at: Position,
) -> Result<(), NoMemory>
    ensures { IfOk result (λ u. state.new ≡ s.jump (C.setting context.now) state.old needs_loop name.now at) }
{
    let is_lost = !may_jump(name, needs_loop, false, state.frames.as_slice());
    put_where(context, state, is_lost, at, 1)
}

fn named<C: Context>(
    alloc: Global,
    context: &C,
    state: &mut State,
    x: Naming,
    name: &Name,
    at: Position,
) -> Result<(), NoMemory>
    ensures { IfOk result (λ u. state.new ≡ s.named (C.setting context.now) state.old x name.now at) }
{
    match x {
        Naming::Type => type_first(alloc, context, state, name, at),
        Naming::TypePart => type_part(alloc, context, state, name, at),
        Naming::Expression => expression(alloc, context, state, name, at),
        Naming::Selected => selected(alloc, context, state, name, at),
        Naming::Method => method(alloc, context, state, name, at),
        Naming::SelectedMethod => selected_method(alloc, context, state, name, at),
        Naming::SuperMethod => super_method(alloc, context, state, name, at),
        Naming::Variable => variable(context, state, name, at),
        Naming::Label => label(alloc, context, state, name, at),
        Naming::BreakTo => jump(context, state, false, name, at),
        Naming::ContinueTo => jump(context, state, true, name, at),
    }
}

fn step<C: Context>(alloc: Global, context: &C, state: &mut State, x: &Use) -> Result<(), NoMemory>
    ensures { IfOk result (λ u. state.new ≡ s.step (C.setting context.now) state.old x.now) }
{
    match x {
        Use::Sign(x) => sign(context, state, *x),
        Use::Word(x, at) => word(context, state, *x, *at),
        Use::Name(x, name, at) => named(alloc, context, state, *x, name, *at),
    }
}

fn walk<C: Context>(
    alloc: Global,
    context: &C,
    state: &mut State,
    uses: &[Use],
) -> Result<(), NoMemory>
    ensures { IfOk result (λ u. state.new ≡ s.run (C.setting context.now) state.old uses.now) }
{
    for x in uses {
        step(alloc, context, state, x)?;
    }
    Ok(())
}

/// The faults of the names of a body, behind those that were found before.
pub fn body_faults<C: Context>(
    alloc: Global,
    context: &C,
    uses: &[Use],
) -> Result<Items<NameFault>, NoMemory>
    ensures { IfOk result (λ faults. faults ≡ s.faults_of (C.setting context.now) uses.now) }
{
    let mut state = first(alloc);
    walk(alloc, context, &mut state, uses)?;
    Ok(state.faults)
}
