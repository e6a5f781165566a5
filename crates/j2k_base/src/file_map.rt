// Files in memory, seen by contracts as a map from their paths to their bytes.
ghost use Rattle.std.specs.Prelude.{◌≡◌, T, OnOk, OnErr, MatchResult, length};
ghost use Rattle.std.specs.Ordering.{nat_cmp};
ghost use Rattle.std.specs.Option.{option_copied};
ghost use Rattle.std.specs.Cmp.Lexicographic.{slice_cmp};
ghost use Rattle.std.specs.FinMap as finite;
ghost use Rattle.std.specs.List.Sorted.{IsSearchInRange};
ghost use Rattle.j2k_base.specs.FileMaps.{IsThere, IsFree};

use crate::{FileBytes, NoMemory, Text};
use std::alloc::Global;
use std::marker::Model;

/// Files in memory, seen by contracts as a map from paths to bytes in the order of the paths' bytes.
#[derive(Debug, Drop)]
pub struct FileMap {
    entries: Vec<(Text, FileBytes)>,
}

impl Model for FileMap {
    ghost use Rattle.std.specs.Prelude.{T};
    ghost use Rattle.std.specs.Ordering.{nat_cmp};
    ghost use Rattle.std.specs.Cmp.Lexicographic.{slice_cmp};
    ghost use Rattle.std.specs.Coded.{coded_list, coded_ℕ};
    ghost use Rattle.std.specs.FinMap as finite;
    ghost use Rattle.j2k_base.specs.FileMaps.{Files};

    ghost Value = { Files };

    ghost coded = { finite.code (coded_list coded_ℕ) (coded_list coded_ℕ) };

    ghost view = { λ a. finite.from_sorted a.entries.items };

    ghost invariant = { λ a. T (finite.is_sorted (slice_cmp nat_cmp) a.entries.items) };
}

// Where a path stands among entries in order, or where it belongs.
fn find_path(entries: &[(Text, FileBytes)], path: &[u8]) -> Result<usize, usize>
    requires { T (finite.is_sorted (slice_cmp nat_cmp) entries.now) }
    ensures bound { IsSearchInRange result (length entries.now) }
    ensures place { MatchResult result (IsThere (slice_cmp nat_cmp) path.now entries.now) (IsFree (slice_cmp nat_cmp) path.now entries.now) }
{
    entries.binary_search_by(|entry| entry.0.as_bytes().cmp(path))
}

impl FileMap {
    /// An empty map, which takes no memory.
    pub fn new(alloc: Global) -> FileMap
        ensures { result ≡ finite.empty }
    {
        FileMap {
            entries: Vec::new(alloc),
        }
    }

    /// How many files it has.
    pub fn len(&self) -> usize
        ensures { result ≡ finite.len self.now }
    {
        self.entries.len()
    }

    /// The files in the order of their paths' bytes.
    pub fn entries(&self) -> &[(Text, FileBytes)]
        ensures { result.now ≡ finite.entries self.now }
    {
        self.entries.as_slice()
    }

    /// The bytes of a file.
    pub fn get(&self, path: &Text) -> Option<&FileBytes>
        ensures { option_copied result ≡ finite.get self.now path.now }
    {
        match find_path(&self.entries, path.as_bytes()) {
            Ok(at) => Some(&self.entries[at].1),
            Err(_) => None,
        }
    }

    /// Puts a file, in place of what the path had. After want of memory the map is as before.
    pub fn insert(&mut self, path: Text, bytes: FileBytes) -> Result<(), NoMemory>
        ensures ok { OnOk result (self.new ≡ finite.insert self.old path bytes) }
        ensures err { OnErr result (self.new ≡ self.old) }
    {
        match find_path(&self.entries, path.as_bytes()) {
            Ok(at) => self.entries[at].1 = bytes,
            Err(at) => self.entries.insert(at, (path, bytes))?,
        }
        Ok(())
    }

    /// Puts copies of a path and bytes, in place of what the path had. After want of memory the map is as before.
    pub fn insert_copy(&mut self, path: &Text, bytes: &[u8]) -> Result<(), NoMemory>
        ensures ok { OnOk result (self.new ≡ finite.insert self.old path.now bytes.now) }
        ensures err { OnErr result (self.new ≡ self.old) }
    {
        let alloc = *self.entries.allocator();
        let path = Text::from_str(alloc, path.as_str())?;
        let bytes = Vec::from_slice(alloc, bytes)?;
        self.insert(path, FileBytes::from_vec(bytes))
    }
}
