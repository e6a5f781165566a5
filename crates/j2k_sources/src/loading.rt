// Reads the files of a project.
ghost use Rattle.std.specs.Prelude.{◌≡◌, ◌≤◌, IfOk, IfSome, IsErrOf, IsTrue, filter, nat_lt};
ghost use Rattle.std.specs.List.{list_any};
ghost use Rattle.std.specs.Str.{bytes_eq};
ghost use Rattle.std.specs.FinMap as finite;
ghost use Rattle.j2k_base.specs.Lists.{Lists};
ghost use Rattle.j2k_io.specs.Disks.{in_folder, listing};
ghost use Rattle.j2k_sources.specs.Causes.{HasCauses};
ghost use Rattle.j2k_settings.specs.Settings.{settings_file};
ghost use Rattle.j2k_sources.specs.Sources.{most_bytes, is_java as is_java_by, java_paths as java_paths_by, has_settings, AreListed, IsLoaded, IsSettings, IsFiles, IsFile, IsWithinTotal, AreSmallFiles, IsSmall};

use crate::halt::{Halt, read};
use crate::limits::{
    Excess, FILES, MAX_FILE_BYTES, MAX_FILES, MAX_SETTINGS_BYTES, MAX_TOTAL_BYTES, TOTAL, excess_of,
};
use j2k_base::{EntryNames, Fault, NoMemory, Paths, SourceFile, SourceFiles, Stop, Text};
use j2k_io::{Bytes, Disk};
use j2k_settings::{SETTINGS_FILE, settings};
use std::alloc::Global;

/// What the path of a Java file ends in.
pub const JAVA_END: &str = ".java";

/// The entries that the settings name, and the Java files in the order of their paths.
#[derive(Debug, Drop)]
pub struct Sources {
    pub entries: EntryNames,
    pub files: SourceFiles,
}

/// What was found in a folder: the sources, a limit that is exceeded, or a fault of the settings.
#[derive(Debug, Drop)]
pub enum Loaded {
    Whole(Sources),
    TooLarge(Excess),
    Refused(Fault),
}

/// Reads the files that are listed: the settings, and then the Java files in the order of their paths.
///
/// Before, their number is judged; then the size of each file as it is read, and the sum so far.
pub fn load<D: Disk>(
    alloc: Global,
    src: &Text,
    paths: &[Text],
    disk: &mut D,
) -> Result<Loaded, Halt>
    requires { IfSome (D.held disk.old) (λ files. paths.now ≡ listing src.now files) }
    ensures loaded { IfOk result (λ loaded. IfSome (D.held disk.old) (λ files. IsLoaded src.now files loaded)) }
    ensures small { IfOk result IsSmall }
    ensures kept { D.held disk.new ≡ D.held disk.old }
    ensures causes { HasCauses (D.reads disk.old) (D.reads disk.new) (D.writes disk.old) (D.writes disk.new) result }
    ensures no_write { IsErrOf result Halt.Write → ⊥ }
{
    let java = java_paths(alloc, paths)?;
    if java.len() as u64 > MAX_FILES {
        return Ok(Loaded::TooLarge(excess_of(alloc, FILES, MAX_FILES)?));
    }
    let entries = match read_settings(alloc, src, paths, disk)? {
        SettingsRead::Entries(entries) => entries,
        SettingsRead::TooLarge(excess) => return Ok(Loaded::TooLarge(excess)),
        SettingsRead::Refused(fault) => return Ok(Loaded::Refused(fault)),
    };
    match read_files(alloc, src, java.as_slice(), disk)? {
        FilesRead::Whole(files) => Ok(Loaded::Whole(Sources { entries, files })),
        FilesRead::TooLarge(excess) => Ok(Loaded::TooLarge(excess)),
    }
}

/// Whether a path is that of a Java file.
pub fn is_java(path: &Text) -> bool
    ensures { result ≡ is_java_by path.now }
{
    path.as_bytes().ends_with(JAVA_END.as_bytes())
}

/// The Java files among these paths.
fn java_paths(alloc: Global, paths: &[Text]) -> Result<Paths, NoMemory>
    ensures { IfOk result (λ java. java ≡ filter is_java_by paths.now) }
{
    let mut java = Paths::new(alloc);
    for path in paths {
        if is_java(path) {
            java.push(Text::from_str(alloc, path.as_str())?)?;
        }
    }
    Ok(java)
}

/// The settings: the entries that they name, that their file is too long, or its fault.
#[derive(Debug, Drop)]
enum SettingsRead {
    Entries(EntryNames),
    TooLarge(Excess),
    Refused(Fault),
}

fn lists_settings(paths: &[Text]) -> bool
    ensures { result ≡ list_any (bytes_eq settings_file) paths.now }
{
    paths.iter().any(|path| SETTINGS_FILE == path.as_str())
}

fn read_settings<D: Disk>(
    alloc: Global,
    src: &Text,
    paths: &[Text],
    disk: &mut D,
) -> Result<SettingsRead, Halt>
    requires { IfSome (D.held disk.old) (λ files. paths.now ≡ listing src.now files) }
    ensures read { IfOk result (λ settings. IfSome (D.held disk.old) (λ files. IsSettings src.now files settings)) }
    ensures kept { D.held disk.new ≡ D.held disk.old }
    ensures causes { HasCauses (D.reads disk.old) (D.reads disk.new) (D.writes disk.old) (D.writes disk.new) result }
    ensures no_write { IsErrOf result Halt.Write → ⊥ }
{
    if !lists_settings(paths) {
        return Ok(SettingsRead::Entries(EntryNames::new(alloc)));
    }
    let path = Text::from_str(alloc, SETTINGS_FILE)?;
    match read(alloc, src, &path, MAX_SETTINGS_BYTES, disk)? {
        Bytes::Over => Ok(SettingsRead::TooLarge(excess_of(
            alloc,
            SETTINGS_FILE,
            MAX_SETTINGS_BYTES,
        )?)),
        Bytes::Whole(bytes) => match settings(alloc, bytes.as_slice()) {
            Ok(entries) => Ok(SettingsRead::Entries(entries)),
            Err(Stop::Fault(fault)) => Ok(SettingsRead::Refused(fault)),
            Err(Stop::Memory) => Err(Halt::Memory),
        },
    }
}

/// The Java files, or a limit that they exceed.
#[derive(Debug, Drop)]
enum FilesRead {
    Whole(SourceFiles),
    TooLarge(Excess),
}

fn read_files<D: Disk>(
    alloc: Global,
    src: &Text,
    java: &[Text],
    disk: &mut D,
) -> Result<FilesRead, Halt>
    requires { IfSome (D.held disk.old) (λ files. AreListed src.now files java.now) }
    ensures read { IfOk result (λ read. IfSome (D.held disk.old) (λ files. IsFiles src.now files java.now read)) }
    ensures small { IfOk result AreSmallFiles }
    ensures kept { D.held disk.new ≡ D.held disk.old }
    ensures causes { HasCauses (D.reads disk.old) (D.reads disk.new) (D.writes disk.old) (D.writes disk.new) result }
    ensures no_write { IsErrOf result Halt.Write → ⊥ }
{
    let mut files = SourceFiles::new(alloc);
    let mut sum = 0u64;
    for path in java {
        match read_file(alloc, src, path, sum, disk)? {
            FileRead::Whole(file) => {
                sum += file.bytes.len() as u64;
                files.push(file)?;
            }
            FileRead::TooLarge(excess) => return Ok(FilesRead::TooLarge(excess)),
        }
    }
    Ok(FilesRead::Whole(files))
}

/// A Java file, or a limit that it exceeds.
#[derive(Debug, Drop)]
enum FileRead {
    Whole(SourceFile),
    TooLarge(Excess),
}

/// Reads a file after others of so many bytes.
fn read_file<D: Disk>(
    alloc: Global,
    src: &Text,
    path: &Text,
    sum: u64,
    disk: &mut D,
) -> Result<FileRead, Halt>
    requires listed { IfSome (D.held disk.old) (λ files. IsTrue (finite.contains_key files (in_folder src.now path.now))) }
    requires within { sum ≤ most_bytes }
    ensures read { IfOk result (λ read. IfSome (D.held disk.old) (λ files. IsFile src.now files sum path.now read)) }
    ensures total { IfOk result (IsWithinTotal sum) }
    ensures kept { D.held disk.new ≡ D.held disk.old }
    ensures causes { HasCauses (D.reads disk.old) (D.reads disk.new) (D.writes disk.old) (D.writes disk.new) result }
    ensures no_write { IsErrOf result Halt.Write → ⊥ }
{
    let Bytes::Whole(bytes) = read(alloc, src, path, MAX_FILE_BYTES, disk)? else {
        return Ok(FileRead::TooLarge(excess_of(alloc, path.as_str(), MAX_FILE_BYTES)?));
    };
    if sum + bytes.len() as u64 > MAX_TOTAL_BYTES {
        return Ok(FileRead::TooLarge(excess_of(alloc, TOTAL, MAX_TOTAL_BYTES)?));
    }
    let path = Text::from_str(alloc, path.as_str())?;
    Ok(FileRead::Whole(SourceFile { path, bytes }))
}
