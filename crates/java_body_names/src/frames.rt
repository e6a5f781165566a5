// Scopes that open and close, and the jumps that may leave them.
ghost use Rattle.std.specs.Prelude.{◌≡◌, IfOk};
ghost use Rattle.std.specs.Option.{option_copied};
ghost use Rattle.java_scopes.specs.Scopes as s;

use j2k_base::{Name, NoMemory};
use java_scopes::{Current, Frame, Opened, State};

pub(crate) fn open(state: &mut State, frame: Frame) -> Result<(), NoMemory>
    ensures { IfOk result (λ u. state.new ≡ s.opened frame state.old) }
{
    let locals = state.locals.len();
    state.frames.push(Opened { frame, locals })?;
    state.current = Current::Value;
    Ok(())
}

/// The innermost scope ends.
pub(crate) fn close(state: &mut State)
    ensures { state.new ≡ s.closed state.old }
{
    if let Some(last) = state.frames.pop() {
        state.locals.leave(last.locals);
        state.current = Current::Value;
    }
}

fn breaks(out: bool, frame: &Frame) -> bool
    ensures { result ≡ s.breaks out frame.now }
{
    match frame {
        Frame::Loop | Frame::Switch => true,
        Frame::Lambda => false,
        Frame::Block | Frame::Arguments | Frame::Label(_) => out,
    }
}

/// Whether a `break` stands in a loop or a switch.
pub(crate) fn may_break(out: bool, frames: &[Opened]) -> bool
    ensures { result ≡ s.may_break out frames.now }
{
    match frames {
        [] => out,
        [o, more @ ..] => may_break(breaks(out, &o.frame), more),
    }
}

fn continues(out: bool, frame: &Frame) -> bool
    ensures { result ≡ s.continues out frame.now }
{
    match frame {
        Frame::Loop => true,
        Frame::Lambda => false,
        Frame::Switch | Frame::Block | Frame::Arguments | Frame::Label(_) => out,
    }
}

/// Whether a `continue` stands in a loop.
pub(crate) fn may_continue(out: bool, frames: &[Opened]) -> bool
    ensures { result ≡ s.may_continue out frames.now }
{
    match frames {
        [] => out,
        [o, more @ ..] => may_continue(continues(out, &o.frame), more),
    }
}

fn begins_loop(frames: &[Opened]) -> bool
    ensures { result ≡ s.begins_loop frames.now }
{
    match frames {
        [] => false,
        [o, ..] => is_loop(&o.frame),
    }
}

fn is_loop(frame: &Frame) -> bool
    ensures { result ≡ s.is_loop frame.now }
{
    match frame {
        Frame::Loop => true,
        _ => false,
    }
}

fn labels(name: &Name, fits: bool, out: bool, frame: &Frame) -> bool
    ensures { result ≡ s.labels name.now fits out frame.now }
{
    match frame {
        Frame::Label(label) => {
            if label.as_bytes() == name.as_bytes() {
                fits
            } else {
                out
            }
        }
        Frame::Lambda => false,
        Frame::Block | Frame::Loop | Frame::Switch | Frame::Arguments => out,
    }
}

/// Whether a jump to a label stands in its statement, which a `continue` needs to be a loop.
pub(crate) fn may_jump(name: &Name, needs_loop: bool, out: bool, frames: &[Opened]) -> bool
    ensures { result ≡ s.may_jump name.now needs_loop out frames.now }
{
    match frames {
        [] => out,
        [o, more @ ..] => {
            let out = labels(name, !needs_loop || begins_loop(more), out, &o.frame);
            may_jump(name, needs_loop, out, more)
        }
    }
}

fn is_label(name: &Name, frame: &Frame) -> bool
    ensures { result ≡ s.is_label name.now frame.now }
{
    match frame {
        Frame::Label(label) => label.as_bytes() == name.as_bytes(),
        Frame::Block | Frame::Loop | Frame::Switch | Frame::Lambda | Frame::Arguments => false,
    }
}

/// Whether a label of the name is in scope.
pub(crate) fn has_label(name: &Name, frames: &[Opened]) -> bool
    ensures { result ≡ s.has_label name.now frames.now }
{
    frames.iter().any(|o| is_label(name, &o.frame))
}

pub(crate) fn in_lambda(frames: &[Opened]) -> bool
    ensures { result ≡ s.in_lambda frames.now }
{
    frames.iter().any(|o| is_lambda(&o.frame))
}

fn is_lambda(frame: &Frame) -> bool
    ensures { result ≡ s.is_lambda frame.now }
{
    match frame {
        Frame::Lambda => true,
        _ => false,
    }
}

fn is_arguments(frame: &Frame) -> bool
    ensures { result ≡ s.is_arguments frame.now }
{
    match frame {
        Frame::Arguments => true,
        _ => false,
    }
}

/// Whether it stands in the arguments of `this(..)` or `super(..)`.
pub(crate) fn in_arguments(frames: &[Opened]) -> bool
    ensures { result ≡ s.in_arguments frames.now }
{
    frames.iter().any(|o| is_arguments(&o.frame))
}
