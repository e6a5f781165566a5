// The files of a conversion.
ghost use Rattle.std.specs.Prelude.{◌≡◌, ◌<◌, ◌+◌, ◌^◌, [], map, OnOk, OnErr, IfOk, IfSome, IsErrOf};
ghost use Rattle.j2k_io.specs.Disks.{with_files, IsCut};
ghost use Rattle.j2k_sources.specs.Causes.{HasCauses};
ghost use Rattle.j2k_tool.specs.Written.{placed, kotlin_file as kotlin_file_by, conversion_of, with_taken, made_by, AreFree};

use crate::conversion::file_of;
use crate::files::TakenFile;
use crate::paths::kotlin_path;
use crate::printing::text_of;
use crate::report::{has_class, push_choices_of, report_of};
use crate::texts::REPORT_FILE;
use j2k_base::{Choices, NoMemory, Series, Text};
use j2k_io::Disk;
use j2k_sources::{Halt, write};
use std::alloc::Global;

/// A file that is to be made, by its path in the target folder.
#[derive(Debug, Drop)]
pub struct MadeFile {
    pub path: Text,
    pub text: Text,
}

pub type MadeFiles = Series<MadeFile>;

/// What files become: the Kotlin file of each, the choices made, and how many of them hold a class.
#[derive(Debug, Drop)]
pub struct Conversion {
    pub files: MadeFiles,
    pub choices: Choices,
    pub classes: usize,
}

impl Conversion {
    /// That of no file.
    pub fn new(alloc: Global) -> Conversion
        ensures { result ≡ conversion_of [] }
    {
        Conversion {
            files: MadeFiles::new(alloc),
            choices: Choices::new(alloc),
            classes: 0,
        }
    }

    /// With one more file.
    pub fn add(&mut self, alloc: Global, taken: &TakenFile) -> Result<(), NoMemory>
        requires few { self.old.classes + 1 < 2 ^ 64 }
        ensures { OnOk result (self.new ≡ with_taken self.old taken.now) }
    {
        self.files.push(kotlin_file(alloc, taken)?)?;
        push_choices_of(alloc, &mut self.choices, taken)?;
        if has_class(taken) {
            self.classes += 1;
        }
        Ok(())
    }

    /// The Kotlin files, and the report.
    pub fn into_files(self, alloc: Global) -> Result<MadeFiles, NoMemory>
        ensures { IfOk result (λ made. made ≡ made_by self) }
    {
        let Conversion {
            mut files,
            choices,
            ..
        } = self;
        let path = Text::from_str(alloc, REPORT_FILE)?;
        let text = report_of(alloc, files.len(), choices.as_slice())?;
        files.push(MadeFile { path, text })?;
        Ok(files)
    }
}

fn kotlin_file(alloc: Global, taken: &TakenFile) -> Result<MadeFile, NoMemory>
    ensures { IfOk result (λ made. made ≡ kotlin_file_by taken.now) }
{
    let made = file_of(alloc, taken.typed.get())?;
    let text = text_of(alloc, &made)?;
    let path = kotlin_path(alloc, taken.path.as_str())?;
    Ok(MadeFile { path, text })
}

/// Makes files in a folder, each where none is.
pub fn write_files<D: Disk>(
    alloc: Global,
    dst: &Text,
    files: &[MadeFile],
    disk: &mut D,
) -> Result<(), Halt>
    requires { IfSome (D.held disk.old) (λ held. AreFree held (map (placed dst.now) files.now)) }
    ensures made { OnOk result (D.held disk.new ≡ with_files (D.held disk.old) (map (placed dst.now) files.now)) }
    ensures cut { OnErr result (IsCut (D.held disk.old) (map (placed dst.now) files.now) (D.held disk.new)) }
    ensures causes { HasCauses (D.reads disk.old) (D.reads disk.new) (D.writes disk.old) (D.writes disk.new) result }
    ensures no_read { IsErrOf result Halt.Read → ⊥ }
{
    for file in files {
        write(alloc, dst, &file.path, &file.text, disk)?;
    }
    Ok(())
}
