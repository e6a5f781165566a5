//! The line that is printed for a fault.
ghost use Rattle.std.specs.Prelude.{◌≡◌, ◌++◌, IfOk, OnOk, map};
ghost use Rattle.std.specs.Fmt.{decimal};
ghost use Rattle.j2k_faults.specs.Faults.{letters_of as letters_by, text_in, text_of as text_by, place_text, code_text, fault_line, not_built as not_built_at};

use j2k_base::{Fault, NoMemory, Phase, Place, Text};
use java_tree::Position;
use std::alloc::Global;

fn letters_of(phase: Phase) -> &'static str
    ensures { result.now ≡ letters_by phase }
{
    match phase {
        Phase::Settings => "C",
        Phase::L => "L",
        Phase::S => "S",
        Phase::N => "N",
        Phase::T => "T",
        Phase::F => "F",
        Phase::P => "P",
        Phase::U => "U",
        Phase::KL => "KL",
        Phase::KS => "KS",
        Phase::K => "K",
    }
}

// The texts of the codes, in the order of their numbers.

const TOKEN_TEXTS: [&str; 6] = [
    "invalid UTF-8",
    "bad Unicode escape",
    "illegal character",
    "bad comment or literal",
    "integer literal too large",
    "outside the profile",
];

const SPELLING_TEXTS: [&str; 3] = ["unmatched bracket", "no such form", "nesting too deep"];

/// These begin with number 0.
const NAME_TEXTS: [&str; 7] = [
    "not built yet",
    "unknown name",
    "declared twice",
    "cycle",
    "ambiguous name",
    "reserved name",
    "wrong file name",
];

const TYPE_TEXTS: [&str; 7] = [
    "operand types",
    "no applicable member",
    "ambiguous member",
    "bad override",
    "abstract",
    "checked exception",
    "not assignable",
];

const FLOW_TEXTS: [&str; 5] = [
    "not assigned",
    "assigned twice",
    "unreachable",
    "missing return",
    "not effectively final",
];

/// The text at a place of a list; empty behind its end.
#[tactic(auto, using(crate::proofs::Texts::texts))]
fn text_at(texts: &[&'static str], at: u8) -> &'static str
    ensures { result.now ≡ text_in (map (λ text. text.now) texts.now) at }
{
    match texts.get(at as usize) {
        Some(text) => text,
        None => "",
    }
}

fn text_of(phase: Phase, number: u8) -> &'static str
    ensures { result.now ≡ text_by phase number }
{
    let at = number.saturating_sub(1);
    match phase {
        Phase::Settings => "bad settings",
        Phase::L => text_at(&TOKEN_TEXTS, at),
        Phase::S => text_at(&SPELLING_TEXTS, at),
        Phase::N => text_at(&NAME_TEXTS, number),
        Phase::T => text_at(&TYPE_TEXTS, at),
        Phase::F => text_at(&FLOW_TEXTS, at),
        Phase::P => "profile rule",
        Phase::U => "must not be null",
        Phase::KL => "kotlin lexical",
        Phase::KS => "kotlin syntax",
        Phase::K => "kotlin type",
    }
}

/// Appends a number in decimal.
pub fn push_number(alloc: Global, out: &mut Text, number: u64) -> Result<(), NoMemory>
    ensures { OnOk result (out.new ≡ out.old ++ decimal number) }
{
    let digits = format!(in alloc; "{number}")?;
    out.push_str(digits.as_str())
}

/// Appends `PATH:LINE:COLUMN`.
pub fn push_place(alloc: Global, out: &mut Text, place: &Place) -> Result<(), NoMemory>
    ensures { OnOk result (out.new ≡ out.old ++ place_text place.now) }
{
    out.push_str(place.path.as_str())?;
    out.push_str(":")?;
    push_number(alloc, out, u64::from(place.line))?;
    out.push_str(":")?;
    push_number(alloc, out, u64::from(place.column))
}

fn push_code(alloc: Global, out: &mut Text, phase: Phase, number: u8) -> Result<(), NoMemory>
    ensures { OnOk result (out.new ≡ out.old ++ code_text phase number) }
{
    out.push_str(letters_of(phase))?;
    push_number(alloc, out, u64::from(number))
}

/// `PATH:LINE:COLUMN: CODE TEXT` and a line end.
#[tactic(auto, unfolding(crate::specs::Faults::fault_line))]
pub fn line_of(alloc: Global, fault: &Fault) -> Result<Text, NoMemory>
    ensures { IfOk result (λ line. line ≡ fault_line fault.now) }
{
    let mut line = Text::new(alloc);
    push_place(alloc, &mut line, &fault.place)?;
    line.push_str(": ")?;
    push_code(alloc, &mut line, fault.phase, fault.number)?;
    line.push_str(" ")?;
    line.push_str(text_of(fault.phase, fault.number))?;
    line.push_str("\n")?;
    Ok(line)
}

/// A form that isn't taken yet, at a position of the file of a path.
pub fn not_built(path: Text, at: Position) -> Fault
    ensures { result ≡ not_built_at path at }
{
    Fault {
        phase: Phase::N,
        number: 0,
        place: Place {
            path,
            offset: at.offset,
            line: at.line,
            column: at.column,
        },
    }
}
