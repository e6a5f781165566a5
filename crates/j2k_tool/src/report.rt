// The choices of a conversion, and the report on them.
ghost use Rattle.std.specs.Prelude.{◌≡◌, ◌++◌, IfOk, OnOk};
ghost use Rattle.std.specs.List.{flat_map, list_any};
ghost use Rattle.java_typed.specs.declared.units.TMethod.{TMethod};
ghost use Rattle.j2k_tool.specs.Report.{kind_text as kind_text_by, choice_text, choice_line, companion, companions, has_class as has_class_by, ReportText, Choices as choices_by};

use crate::files::TakenFile;
use j2k_base::{Choice, ChoiceKind, Choices, Name, NoMemory, Place, Text};
use j2k_faults::{push_number, push_place};
use java_tree::Position;
use java_typed::{TClass, TMethod};
use std::alloc::Global;

fn kind_text(kind: ChoiceKind) -> &'static str
    ensures { result.now ≡ kind_text_by kind }
{
    match kind {
        ChoiceKind::Companion => "companion",
        ChoiceKind::Property => "property",
        ChoiceKind::Rename => "rename",
        ChoiceKind::Widen => "widen",
        ChoiceKind::Nullable => "nullable",
        ChoiceKind::When => "when",
        ChoiceKind::Chain => "chain",
        ChoiceKind::Range => "range",
        ChoiceKind::While => "while",
        ChoiceKind::Bind => "bind",
        ChoiceKind::Copy => "copy",
        ChoiceKind::Fold => "fold",
        ChoiceKind::Drop => "drop",
    }
}

/// A class with a static method has a companion.
pub fn push_choices_of(
    alloc: Global,
    choices: &mut Choices,
    taken: &TakenFile,
) -> Result<(), NoMemory>
    ensures { OnOk result (choices.new ≡ choices.old ++ choices_by taken.now) }
{
    match taken.typed.get().classes.as_slice() {
        [] => Ok(()),
        [class, ..] => push_companion(alloc, choices, &taken.path, class),
    }
}

fn push_companion(
    alloc: Global,
    choices: &mut Choices,
    path: &Text,
    class: &TClass,
) -> Result<(), NoMemory>
    ensures { OnOk result (choices.new ≡ choices.old ++ companions path.now class.now) }
{
    if has_static(class.methods.as_slice()) {
        choices.push(companion_of(alloc, path, class.at, &class.name)?)
    } else {
        Ok(())
    }
}

/// Whether a method is static.
fn has_static(methods: &[TMethod]) -> bool
    ensures { result ≡ list_any (λ (m : TMethod). m.modifiers.is_static) methods.now }
{
    methods.iter().any(|method| method.modifiers.is_static)
}

fn companion_of(alloc: Global, path: &Text, at: Position, name: &Name) -> Result<Choice, NoMemory>
    ensures { IfOk result (λ choice. choice ≡ companion path.now at name.now) }
{
    let path = Text::from_str(alloc, path.as_str())?;
    let text = Text::from_str(alloc, name.as_str())?;
    Ok(Choice {
        kind: ChoiceKind::Companion,
        place: Place {
            path,
            offset: at.offset,
            line: at.line,
            column: at.column,
        },
        text,
    })
}

/// Whether a file holds a class.
#[tactic(auto, unfolding(crate::specs::Report::has_class))]
pub fn has_class(file: &TakenFile) -> bool
    ensures { result ≡ has_class_by file.now }
{
    !matches!(file.typed.get().classes.as_slice(), [])
}

/// The report on so many files and these choices.
#[tactic(auto, unfolding(crate::specs::Report::ReportText))]
pub fn report_of(alloc: Global, files: usize, choices: &[Choice]) -> Result<Text, NoMemory>
    ensures { IfOk result (λ text. text ≡ ReportText files choices.now) }
{
    let mut out = Text::from_str(alloc, "j2k-report 1\nfiles ")?;
    push_number(alloc, &mut out, files as u64)?;
    out.push_str("\nchoices ")?;
    push_number(alloc, &mut out, choices.len() as u64)?;
    out.push_str("\n")?;
    push_choices(alloc, &mut out, choices)?;
    Ok(out)
}

fn push_choices(alloc: Global, out: &mut Text, choices: &[Choice]) -> Result<(), NoMemory>
    ensures { OnOk result (out.new ≡ out.old ++ flat_map choice_line choices.now) }
{
    for choice in choices {
        push_choice(alloc, out, choice)?;
    }
    Ok(())
}

fn push_choice(alloc: Global, out: &mut Text, choice: &Choice) -> Result<(), NoMemory>
    ensures { OnOk result (out.new ≡ out.old ++ choice_line choice.now) }
{
    push_place(alloc, out, &choice.place)?;
    out.push_str(" ")?;
    out.push_str(kind_text(choice.kind))?;
    push_text(out, choice.kind, choice.text.as_str())?;
    out.push_str("\n")
}

/// The text of a choice behind a blank; what is dropped has none.
fn push_text(out: &mut Text, kind: ChoiceKind, text: &str) -> Result<(), NoMemory>
    ensures { OnOk result (out.new ≡ out.old ++ choice_text kind text.now) }
{
    match kind {
        ChoiceKind::Drop => Ok(()),
        _ => {
            out.push_str(" ")?;
            out.push_str(text)
        }
    }
}
