// What the words ask for is done, but for printing.
ghost use Rattle.std.specs.Prelude.{◌≡◌, ◌≢◌, ◌++◌, [], IfOk, OnOk, OnErr, IfSome, IsErrOf, IsOkAnd};
ghost use Rattle.std.specs.Fmt.{decimal};
ghost use Rattle.j2k_io.specs.Disks.{listing, with_files, IsCut};
ghost use Rattle.j2k_sources.specs.Causes.{HasCauses};
ghost use Rattle.j2k_sources.specs.Sources.{AreSmall, IsSmall};
ghost use Rattle.j2k_tool.specs.Asks.{Asks, AsksOf, ConvertsLoaded, ConvertsSources, Answered, Stopped, IsAnswer, KotlinDiffer, PathsDiffer, conversion_text as text_by, too_large_text as too_large_text_by};
ghost use Rattle.j2k_faults.specs.Faults.{fault_line};
ghost use Rattle.j2k_tool.specs.Texts.{not_empty_text as not_empty_by};
ghost use Rattle.j2k_tool.specs.Messages.{message_text};
ghost use Rattle.j2k_tool.specs.Words.{words_mean};
ghost use Rattle.j2k_tool.specs.Written.{placed_files as placed_by, AreFree};

use crate::project::{Project, judge};
use crate::status::Status;
use crate::texts::{
    CONVERTED_CHOICES, CONVERTED_CLASSES, CONVERTED_FILES, LINE_END, NOT_EMPTY, TOO_LARGE, USAGE,
};
use crate::words::folders;
use crate::writing::{Conversion, write_files};
use j2k_base::{Fault, NoMemory, Text, Words};
use j2k_faults::{line_of, push_number};
use j2k_io::Disk;
use j2k_sources::{Excess, Halt, Loaded, Sources, list, load};
use std::alloc::Global;

/// A text that is printed.
#[derive(Debug, Drop)]
pub enum Message {
    Fixed(&'static str),
    Made(Text),
}

impl Message {
    pub fn as_bytes(&self) -> &[u8]
        ensures { result.now ≡ message_text self.now }
    {
        match self {
            Message::Fixed(text) => text.as_bytes(),
            Message::Made(text) => text.as_bytes(),
        }
    }
}

/// A status and the text that is printed for it.
#[derive(Debug, Drop)]
pub struct Answer {
    pub status: Status,
    pub message: Message,
}

/// Does what the words ask for, but for printing the answer.
#[tactic(auto, unfolding(crate::specs::Asks::Asks))]
pub fn perform<D: Disk>(alloc: Global, words: &Words, disk: &mut D) -> Result<Answer, Halt>
    ensures answered { IfOk result (λ a. IfSome (D.held disk.old) (λ files. Answered (Asks words.now files) a.status (message_text a.message) (Some files) (D.held disk.new))) }
    ensures usage { IfOk result (λ a. a.status ≡ Status.Usage → words_mean words.now ≡ None) }
    ensures no_words { words_mean words.now ≡ None → IsOkAnd result (λ a. a.status ≡ Status.Usage) }
    ensures refusal { IfOk result (λ a. IsAnswer a.status × (a.status ≢ Status.Done → D.held disk.new ≡ D.held disk.old)) }
    ensures stopped { OnErr result (IfSome (D.held disk.old) (λ files. Stopped (Asks words.now files) (Some files) (D.held disk.new))) }
    ensures unread { IsErrOf result Halt.Read → D.held disk.new ≡ D.held disk.old }
    ensures causes { HasCauses (D.reads disk.old) (D.reads disk.new) (D.writes disk.old) (D.writes disk.new) result }
{
    match folders(words) {
        Some((src, dst)) => convert(alloc, src, dst, disk),
        None => Ok(Answer {
            status: Status::Usage,
            message: Message::Fixed(USAGE),
        }),
    }
}

/// `convert SRC DST`.
fn convert<D: Disk>(alloc: Global, src: &Text, dst: &Text, disk: &mut D) -> Result<Answer, Halt>
    ensures answered { IfOk result (λ a. IfSome (D.held disk.old) (λ files. Answered (AsksOf (Some (src.now, dst.now)) files) a.status (message_text a.message) (Some files) (D.held disk.new))) }
    ensures not_usage { IfOk result (λ a. a.status ≢ Status.Usage) }
    ensures refusal { IfOk result (λ a. IsAnswer a.status × (a.status ≢ Status.Done → D.held disk.new ≡ D.held disk.old)) }
    ensures stopped { OnErr result (IfSome (D.held disk.old) (λ files. Stopped (AsksOf (Some (src.now, dst.now)) files) (Some files) (D.held disk.new))) }
    ensures unread { IsErrOf result Halt.Read → D.held disk.new ≡ D.held disk.old }
    ensures causes { HasCauses (D.reads disk.old) (D.reads disk.new) (D.writes disk.old) (D.writes disk.new) result }
{
    let paths = list(alloc, src, disk)?;
    let there = list(alloc, dst, disk)?;
    if there.len() > 0 {
        return Ok(Answer {
            status: Status::NotEmpty,
            message: Message::Made(not_empty_text(alloc, dst)?),
        });
    }
    let loaded = load(alloc, src, paths.as_slice(), disk)?;
    convert_loaded(alloc, dst, &loaded, disk)
}

fn not_empty_text(alloc: Global, dst: &Text) -> Result<Text, NoMemory>
    ensures { IfOk result (λ text. text ≡ not_empty_by dst.now) }
{
    let mut text = Text::from_str(alloc, NOT_EMPTY)?;
    text.push_str(dst.as_str())?;
    text.push_str(LINE_END)?;
    Ok(text)
}

/// Converts what was loaded into an empty folder.
fn convert_loaded<D: Disk>(
    alloc: Global,
    dst: &Text,
    loaded: &Loaded,
    disk: &mut D,
) -> Result<Answer, Halt>
    requires differ { IfSome (D.held disk.old) (λ files. (listing dst.now files ≡ []) × PathsDiffer loaded.now) }
    requires small { IsSmall loaded.now }
    ensures answered { IfOk result (λ a. Answered (ConvertsLoaded dst.now loaded.now) a.status (message_text a.message) (D.held disk.old) (D.held disk.new)) }
    ensures not_usage { IfOk result (λ a. a.status ≢ Status.Usage) }
    ensures refusal { IfOk result (λ a. IsAnswer a.status × (a.status ≢ Status.Done → D.held disk.new ≡ D.held disk.old)) }
    ensures stopped { OnErr result (Stopped (ConvertsLoaded dst.now loaded.now) (D.held disk.old) (D.held disk.new)) }
    ensures no_read { IsErrOf result Halt.Read → ⊥ }
    ensures causes { HasCauses (D.reads disk.old) (D.reads disk.new) (D.writes disk.old) (D.writes disk.new) result }
{
    match loaded {
        Loaded::Whole(sources) => convert_sources(alloc, dst, sources, disk),
        Loaded::TooLarge(excess) => Ok(Answer {
            status: Status::TooLarge,
            message: Message::Made(too_large_text(alloc, excess)?),
        }),
        Loaded::Refused(fault) => Ok(refusal_of(alloc, fault)?),
    }
}

fn too_large_text(alloc: Global, excess: &Excess) -> Result<Text, NoMemory>
    ensures { IfOk result (λ text. text ≡ too_large_text_by excess.now) }
{
    let mut text = Text::from_str(alloc, TOO_LARGE)?;
    text.push_str(excess.what.as_str())?;
    text.push_str(" ")?;
    push_number(alloc, &mut text, excess.limit)?;
    text.push_str(LINE_END)?;
    Ok(text)
}

fn refusal_of(alloc: Global, fault: &Fault) -> Result<Answer, NoMemory>
    ensures { IfOk result (λ a. (a.status ≡ Status.Refused) × (message_text a.message ≡ fault_line fault.now)) }
{
    Ok(Answer {
        status: Status::Refused,
        message: Message::Made(line_of(alloc, fault)?),
    })
}

/// Converts sources into an empty folder.
fn convert_sources<D: Disk>(
    alloc: Global,
    dst: &Text,
    sources: &Sources,
    disk: &mut D,
) -> Result<Answer, Halt>
    requires differ { IfSome (D.held disk.old) (λ files. (listing dst.now files ≡ []) × KotlinDiffer sources.now.files) }
    requires small { AreSmall sources.now.files }
    ensures answered { IfOk result (λ a. Answered (ConvertsSources dst.now sources.now) a.status (message_text a.message) (D.held disk.old) (D.held disk.new)) }
    ensures not_usage { IfOk result (λ a. a.status ≢ Status.Usage) }
    ensures refusal { IfOk result (λ a. IsAnswer a.status × (a.status ≢ Status.Done → D.held disk.new ≡ D.held disk.old)) }
    ensures stopped { OnErr result (Stopped (ConvertsSources dst.now sources.now) (D.held disk.old) (D.held disk.new)) }
    ensures no_read { IsErrOf result Halt.Read → ⊥ }
    ensures causes { HasCauses (D.reads disk.old) (D.reads disk.new) (D.writes disk.old) (D.writes disk.new) result }
{
    match judge(alloc, sources)? {
        Project::Taken(conversion) => write_project(alloc, dst, conversion, disk),
        Project::Refused(fault) => Ok(refusal_of(alloc, &fault)?),
    }
}

/// Writes the Kotlin files and the report into an empty folder.
#[tactic(auto, using(crate::proofs::Writes::nothing_cut))]
fn write_project<D: Disk>(
    alloc: Global,
    dst: &Text,
    conversion: Conversion,
    disk: &mut D,
) -> Result<Answer, Halt>
    requires { IfSome (D.held disk.old) (λ held. AreFree held (placed_by dst.now conversion)) }
    ensures answer { IfOk result (λ a. (a.status ≡ Status.Done) × (message_text a.message ≡ text_by conversion)) }
    ensures made { OnOk result (D.held disk.new ≡ with_files (D.held disk.old) (placed_by dst.now conversion)) }
    ensures cut { OnErr result (IsCut (D.held disk.old) (placed_by dst.now conversion) (D.held disk.new)) }
    ensures no_read { IsErrOf result Halt.Read → ⊥ }
    ensures causes { HasCauses (D.reads disk.old) (D.reads disk.new) (D.writes disk.old) (D.writes disk.new) result }
{
    let message = text_of(alloc, &conversion)?;
    let files = conversion.into_files(alloc)?;
    write_files(alloc, dst, files.as_slice(), disk)?;
    Ok(Answer {
        status: Status::Done,
        message: Message::Made(message),
    })
}

fn text_of(alloc: Global, conversion: &Conversion) -> Result<Text, NoMemory>
    ensures { IfOk result (λ text. text ≡ text_by conversion.now) }
{
    let mut text = Text::from_str(alloc, CONVERTED_FILES)?;
    push_number(alloc, &mut text, conversion.files.len() as u64)?;
    text.push_str(CONVERTED_CLASSES)?;
    push_number(alloc, &mut text, conversion.classes as u64)?;
    text.push_str(CONVERTED_CHOICES)?;
    push_number(alloc, &mut text, conversion.choices.len() as u64)?;
    text.push_str(LINE_END)?;
    Ok(text)
}
