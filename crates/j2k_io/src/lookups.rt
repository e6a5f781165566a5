// Listing and reading in a map of files.
ghost use Rattle.std.specs.Prelude.{◌≡◌, ◌∷◌, [], ◌++◌, IfOk, OnOk, IfSome, IsTrue, option_and_then};
ghost use Rattle.std.specs.Option.{option_copied, option_to_list};
ghost use Rattle.std.specs.FinMap as finite;
ghost use Rattle.j2k_base.specs.Lists.{stripped};
ghost use Rattle.j2k_io.specs.Disks.{unless_empty, below, listing};
ghost use Rattle.j2k_io.specs.Reads.{IsRead, IsWithin};

use crate::Bytes;
use j2k_base::{FileBytes, FileMap, NoMemory, Paths, Text};
use std::alloc::Global;

// The rest of a path after the folder's.
fn after_folder<'a>(folder: &str, path: &'a str) -> Option<&'a str>
    ensures { option_copied result ≡ stripped folder.now path.now }
{
    path.strip_prefix(folder)
}

// What stands after a slash, where it isn't empty.
fn after_slash(path: &str) -> Option<&str>
    ensures { option_copied result ≡ option_and_then unless_empty (stripped (47 ∷ []) path.now) }
{
    match path.strip_prefix('/') {
        Some(rest) => if rest.is_empty() { None } else { Some(rest) },
        None => None,
    }
}

// The rest of a path below a folder, where it lies there.
fn rest_below<'a>(folder: &str, path: &'a str) -> Option<&'a str>
    ensures { option_copied result ≡ below folder.now path.now }
{
    match after_folder(folder, path) {
        Some(after) => after_slash(after),
        None => None,
    }
}

// Adds what a path is below a folder, where it lies there.
fn push_below(paths: &mut Paths, alloc: Global, folder: &Text, path: &Text) -> Result<(), NoMemory>
    ensures { OnOk result (paths.new ≡ paths.old ++ option_to_list (below folder.now path.now)) }
{
    if let Some(rest) = rest_below(folder.as_str(), path.as_str()) {
        paths.push(Text::from_str(alloc, rest)?)?;
    }
    Ok(())
}

// The paths of all files under a folder, relative to it, in the order of their bytes.
pub fn list_files(files: &FileMap, alloc: Global, folder: &Text) -> Result<Paths, NoMemory>
    ensures { IfOk result (λ paths. paths ≡ listing folder.now files.now) }
{
    let mut paths = Paths::new(alloc);
    for entry in files.entries() {
        push_below(&mut paths, alloc, folder, &entry.0)?;
    }
    Ok(paths)
}

// The bytes of a file, where it has at most so many.
pub fn read_file(files: &FileMap, alloc: Global, path: &Text, limit: u64) -> Result<Bytes, NoMemory>
    requires { IsTrue (finite.contains_key files.now path.now) }
    ensures bytes { IfOk result (λ bytes. IfSome (finite.get files.now path.now) (λ file. IsRead limit file bytes)) }
    ensures within { IfOk result (IsWithin limit) }
{
    let bytes = files.get(path).unwrap();
    if bytes.len() as u64 > limit {
        return Ok(Bytes::Over);
    }
    let copy = Vec::from_slice(alloc, bytes.as_slice())?;
    Ok(Bytes::Whole(FileBytes::from_vec(copy)))
}
