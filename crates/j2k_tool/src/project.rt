// The files of a project.
ghost use Rattle.std.specs.Prelude.{◌≡◌, ◌<◌, ◌+◌, ◌^◌, [], Some, None, IfOk, OnOk, IfSome, IfNone};
ghost use Rattle.j2k_sources.specs.Sources.{AreSmall};
ghost use Rattle.java_names.specs.Binding.{IsBound};
ghost use Rattle.java_project.specs.Files.{IsSpelled};
ghost use Rattle.j2k_tool.specs.Projects.{precedes as precedes_by, least as least_by, entries_fault as entries_fault_by, earliest, added, AreForms, IsFirstOpen, IsFirst, IsJudged};
ghost use Rattle.j2k_tool.specs.Paths.{class_name as class_name_by, with_name, names_of as names_by};
ghost use Rattle.j2k_tool.specs.Sources.{HasOpenForm};

use crate::files::{Found, look};
use crate::paths::class_name;
use crate::writing::Conversion;
use j2k_base::{Fault, NoMemory, SourceFile, Stop, Text};
use j2k_faults::not_built;
use j2k_settings::SETTINGS_FILE;
use j2k_sources::Sources;
use java_names::{Bound, bind, let_go};
use java_project::spelling;
use java_taken::Names;
use java_tree::Position;
use java_unit_grammar::JUnit;
use sqlite_items::Items;
use std::alloc::Global;

/// What sources are: a project that is taken, as it is converted, or one that is refused with its first fault.
#[derive(Debug, Drop)]
pub enum Project {
    Taken(Conversion),
    Refused(Fault),
}

/// Judges the files and the entries of a project.
pub fn judge(alloc: Global, sources: &Sources) -> Result<Project, NoMemory>
    requires { AreSmall sources.now.files }
    ensures { IfOk result (IsJudged sources.now) }
{
    match spelling(alloc, sources.files.as_slice())? {
        Ok(units) => judge_units(alloc, sources, units),
        Err(fault) => Ok(Project::Refused(fault)),
    }
}

/// Judges the names of a project.
fn judge_units(alloc: Global, sources: &Sources, units: Items<JUnit>) -> Result<Project, NoMemory>
    requires { IsSpelled sources.now.files units }
    ensures { IfOk result (IsJudged sources.now) }
{
    match bind(alloc, units, &sources.entries) {
        Ok(bound) => judge_bound(alloc, sources, bound),
        Err(Stop::Fault(fault)) => Ok(Project::Refused(fault)),
        Err(Stop::Memory) => Err(NoMemory),
    }
}

/// Judges the forms of a project whose names have no fault, and lets the project go.
fn judge_bound(alloc: Global, sources: &Sources, bound: Bound) -> Result<Project, NoMemory>
    requires spelled { IsSpelled sources.now.files bound.units }
    requires bound { IsBound bound.units sources.now.entries }
    ensures { IfOk result (IsJudged sources.now) }
{
    let judged = judge_forms(alloc, sources, bound.units.as_slice());
    let_go(bound);
    judged
}

fn judge_forms(alloc: Global, sources: &Sources, units: &[JUnit]) -> Result<Project, NoMemory>
    requires spelled { IsSpelled sources.now.files units.now }
    requires bound { IsBound units.now sources.now.entries }
    ensures { IfOk result (IsJudged sources.now) }
{
    let classes = names_of(alloc, sources.files.as_slice())?;
    let Forms { form, conversion } = forms_of(alloc, &classes, sources.files.as_slice(), units)?;
    match first_open(alloc, sources, form)? {
        Some(fault) => Ok(Project::Refused(fault)),
        None => Ok(Project::Taken(conversion)),
    }
}

/// The first open form of a project, by that of its files: the settings take part by their path.
fn first_open(
    alloc: Global,
    sources: &Sources,
    form: Option<Fault>,
) -> Result<Option<Fault>, NoMemory>
    requires { IsFirst (HasOpenForm (names_by sources.now.files)) [] sources.now.files form }
    ensures some { IfOk result (λ found. IfSome found (IsFirstOpen sources.now)) }
    ensures none { IfOk result (λ found. IfNone found ((sources.now.entries ≡ []) × (form ≡ None))) }
{
    if sources.entries.len() == 0 {
        return Ok(form);
    }
    let entries = entries_fault(alloc)?;
    match form {
        Some(fault) => Ok(Some(least(entries, fault))),
        None => Ok(Some(entries)),
    }
}

fn entries_fault(alloc: Global) -> Result<Fault, NoMemory>
    ensures { IfOk result (λ fault. fault ≡ entries_fault_by) }
{
    let path = Text::from_str(alloc, SETTINGS_FILE)?;
    let start = Position {
        offset: 0,
        line: 1,
        column: 1,
    };
    Ok(not_built(path, start))
}

/// The fault of the file whose path comes first.
fn least(a: Fault, b: Fault) -> Fault
    ensures { result ≡ least_by a b }
{
    if precedes(a.place.path.as_str(), b.place.path.as_str()) {
        a
    } else {
        b
    }
}

fn precedes(a: &str, b: &str) -> bool
    ensures { result ≡ precedes_by a.now b.now }
{
    a.as_bytes().cmp(b.as_bytes()).is_lt()
}

/// The first open form among files, and what the files that are taken become.
#[derive(Debug, Drop)]
struct Forms {
    form: Option<Fault>,
    conversion: Conversion,
}

impl Forms {
    /// With what is found of one more file.
    fn add(&mut self, alloc: Global, found: Found) -> Result<(), NoMemory>
        requires few { self.old.conversion.classes + 1 < 2 ^ 64 }
        ensures { OnOk result (self.new ≡ added self.old found) }
    {
        match found {
            Found::Open(fault) => keep_first(&mut self.form, fault),
            Found::Taken(file) => self.conversion.add(alloc, &file)?,
        }
        Ok(())
    }
}

fn keep_first(first: &mut Option<Fault>, fault: Fault)
    ensures { first.new ≡ earliest first.old (Some fault) }
{
    if first.is_none() {
        *first = Some(fault);
    }
}

/// Looks at each file of a project, whose classes have these names, behind the files before it. No typed tree is kept.
fn forms_of(
    alloc: Global,
    classes: &Names,
    files: &[SourceFile],
    units: &[JUnit],
) -> Result<Forms, NoMemory>
    requires { IsSpelled files.now units.now }
    ensures { IfOk result (AreForms classes.now files.now) }
{
    let mut earlier = Names::new(alloc);
    let mut forms = Forms {
        form: None,
        conversion: Conversion::new(alloc),
    };
    for (number, file) in files.iter().enumerate() {
        let found = look(alloc, classes, &earlier, file, &units[number])?;
        forms.add(alloc, found)?;
        declare(&mut earlier, file.path.as_str())?;
    }
    Ok(forms)
}

/// The names of the classes of files.
fn names_of(alloc: Global, files: &[SourceFile]) -> Result<Names, NoMemory>
    ensures { IfOk result (λ names. names ≡ names_by files.now) }
{
    let mut names = Names::new(alloc);
    for file in files {
        declare(&mut names, file.path.as_str())?;
    }
    Ok(names)
}

/// Declares the name of the class of the file of a path.
fn declare(names: &mut Names, path: &str) -> Result<(), NoMemory>
    ensures { OnOk result (names.new ≡ with_name names.old (class_name_by path.now)) }
{
    names.declare(class_name(path))?;
    Ok(())
}
