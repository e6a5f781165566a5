// What one file of a project is.
ghost use Rattle.std.specs.Prelude.{◌≡◌, IfOk};
ghost use Rattle.java_project.specs.Files.{HasUnit};
ghost use Rattle.j2k_tool.specs.Sources.{IsFound};

use j2k_base::{Fault, NoMemory, SourceFile, Text};
use j2k_faults::not_built;
use java_taken::{Judged, Names, judge};
use java_typed::TUnit;
use java_unit_grammar::JUnit;
use sqlite_items::Boxed;
use std::alloc::Global;

/// A file that is taken: its path, and its typed tree.
#[derive(Drop)]
pub struct TakenFile {
    pub path: Text,
    pub typed: Boxed<TUnit>,
}

/// What a file that spells a unit is found to be: one with an open form, or one that is taken.
#[derive(Drop)]
pub enum Found {
    Open(Fault),
    Taken(TakenFile),
}

/// Looks at a file and its unit among classes of these names, behind files of classes of the earlier ones.
pub fn look(
    alloc: Global,
    classes: &Names,
    earlier: &Names,
    file: &SourceFile,
    unit: &JUnit,
) -> Result<Found, NoMemory>
    requires { HasUnit file.now unit.now }
    ensures { IfOk result (IsFound classes.now earlier.now file.now) }
{
    let path = Text::from_str(alloc, file.path.as_str())?;
    match judge(alloc, unit, classes, earlier)? {
        Judged::Open(at) => Ok(Found::Open(not_built(path, at))),
        Judged::Typed(typed) => Ok(Found::Taken(TakenFile { path, typed })),
    }
}
