// A disk in memory without faults.
ghost use Rattle.std.specs.Prelude.{◌≡◌, ◌≢◌, IfOk, OnOk, OnErr, IfSome, IsTrue, IsFalse, Some};
ghost use Rattle.std.specs.FinMap as finite;
ghost use Rattle.j2k_io.specs.Disks.{listing};
ghost use Rattle.j2k_io.specs.Reads.{IsRead, IsWithin};

use crate::lookups::{list_files, read_file};
use crate::{Bytes, Disk, DiskStop};
use j2k_base::{FileMap, Paths, Text};
use std::alloc::Global;
use std::marker::Model;

/// A disk in memory that never fails, seen by contracts as its files.
#[derive(Debug, Drop)]
pub struct SteadyDisk {
    files: FileMap,
}

impl Model for SteadyDisk {
    ghost use Rattle.std.specs.Coded.{coded_list, coded_ℕ};
    ghost use Rattle.std.specs.FinMap as finite;
    ghost use Rattle.j2k_io.specs.Disks.{Files};

    ghost Value = { Files };

    ghost coded = { finite.code (coded_list coded_ℕ) (coded_list coded_ℕ) };

    ghost view = { λ a. a.files };
}

impl SteadyDisk {
    /// A disk with these files, which takes no memory.
    pub fn new(files: FileMap) -> SteadyDisk
        ensures { result ≡ files }
    {
        SteadyDisk { files }
    }

    pub fn files(&self) -> &FileMap
        ensures { result.now ≡ self.now }
    {
        &self.files
    }
}

impl Disk for SteadyDisk {
    ghost held = { λ files. Some files };

    ghost reads = { λ _. 0 };

    ghost writes = { λ _. 0 };

    fn list(&mut self, alloc: Global, dir: &Text) -> Result<Paths, DiskStop>
        ensures listed { IfOk result (λ paths. paths ≡ listing dir.now self.old) }
        ensures kept { self.new ≡ self.old }
        ensures never_failed { result ≢ Err DiskStop.Failed }
    {
        Ok(list_files(&self.files, alloc, dir)?)
    }

    fn read(&mut self, alloc: Global, path: &Text, limit: u64) -> Result<Bytes, DiskStop>
        requires { IsTrue (finite.contains_key self.old path.now) }
        ensures bytes { IfOk result (λ bytes. IfSome (finite.get self.old path.now) (λ file. IsRead limit file bytes)) }
        ensures within { IfOk result (IsWithin limit) }
        ensures kept { self.new ≡ self.old }
        ensures never_failed { result ≢ Err DiskStop.Failed }
    {
        Ok(read_file(&self.files, alloc, path, limit)?)
    }

    fn write_new(&mut self, path: &Text, bytes: &[u8]) -> Result<(), DiskStop>
        requires { IsFalse (finite.contains_key self.old path.now) }
        ensures written { OnOk result (self.new ≡ finite.insert self.old path.now bytes.now) }
        ensures err { OnErr result (self.new ≡ self.old) }
        ensures never_failed { result ≢ Err DiskStop.Failed }
    {
        Ok(self.files.insert_copy(path, bytes)?)
    }
}
