// Lists that contracts see as the lists of their items.
ghost use Rattle.std.specs.Prelude.{◌≡◌, ◌<◌, [], ◌∷◌, ◌++◌, length, slice_get, Some, OnOk, OnErr};

use crate::{NoMemory, Text};
use std::alloc::Global;
use std::marker::Model;

/// The 16-bit units of a Java text.
pub type Units = Series<u16>;

/// The bytes of a file.
pub type FileBytes = Series<u8>;

/// Paths of files, each of its parts after a slash but the first.
pub type Paths = Series<Text>;

/// The words of a command line.
pub type Words = Series<Text>;

/// The entry points of a project, each a qualified class name, a dot and a method name.
pub type EntryNames = Series<Text>;

/// Source files in memory.
pub type SourceFiles = Series<SourceFile>;

/// A source file in memory: its path in the project and its bytes.
#[derive(Debug, Drop)]
pub struct SourceFile {
    pub path: Text,
    pub bytes: FileBytes,
}

/// A list, seen by contracts as the list of its items.
#[derive(Debug, Drop)]
pub struct Series<T> {
    items: Vec<T>,
}

impl<T> Model for Series<T> {
    ghost use Rattle.std.specs.Prelude.{List};
    ghost use Rattle.std.specs.Coded.{coded_list};

    ghost Value = { List T };

    ghost coded = { coded_list T.code };

    ghost view = { λ a. a.items.items };
}

impl<T> Series<T> {
    /// An empty list, which takes no memory.
    pub fn new(alloc: Global) -> Series<T>
        ensures { result ≡ [] }
    {
        Series {
            items: Vec::new(alloc),
        }
    }

    pub fn from_vec(items: Vec<T>) -> Series<T>
        ensures { result ≡ items.items }
    {
        Series { items }
    }

    pub fn len(&self) -> usize
        ensures { result ≡ length self.now }
    {
        self.items.len()
    }

    pub fn get(&self, at: usize) -> &T
        requires { at < length self.now }
        ensures { slice_get self.now at ≡ Some result.now }
    {
        &self.items[at]
    }

    pub fn as_slice(&self) -> &[T]
        ensures { result.now ≡ self.now }
    {
        self.items.as_slice()
    }
}

impl<T: Drop> Series<T> {
    /// Appends an item. After want of memory the list is as before.
    pub fn push(&mut self, item: T) -> Result<(), NoMemory>
        ensures ok { OnOk result (self.new ≡ self.old ++ item ∷ []) }
        ensures err { OnErr result (self.new ≡ self.old) }
    {
        self.items.push(item)?;
        Ok(())
    }
}
