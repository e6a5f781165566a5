// A disk in memory with a list of failing calls.
ghost use Rattle.std.specs.Prelude.{◌≡◌, ◌+◌, take, IfOk, OnOk, IfSome, IsSome, IsSomeAnd, IsErrOf, IsTrue, IsFalse, None, Some, ◌↔◌};
ghost use Rattle.std.specs.FinMap as finite;
ghost use Rattle.j2k_io.specs.Disks.{listing};
ghost use Rattle.j2k_io.specs.Reads.{IsRead, IsWithin};
ghost use Rattle.j2k_io.specs.MemDisks.{keep_now, called, after_read};

use crate::counted::next_call;
use crate::lookups::{list_files, read_file};
use crate::{Bytes, Disk, DiskStop, Fails};
use j2k_base::{FileMap, Paths, Text};
use std::alloc::Global;
use std::marker::Model;

/// A disk in memory whose listed calls fail, and no others. Calls of all three kinds are numbered from 1;
/// those past number 4294967295 don't fail. Contracts see its files, the list, and the counts of calls and faults.
#[derive(Debug, Drop)]
pub struct MemDisk {
    files: FileMap,
    failing: Fails,
    calls: u32,
    reads: u32,
    writes: u32,
}

impl Model for MemDisk {
    ghost use Rattle.std.specs.Prelude.{◌+◌, ◌≤◌};
    ghost use Rattle.j2k_io.specs.MemDisks.{DiskState, disk_code};

    ghost Value = { DiskState };

    ghost coded = { disk_code };

    ghost view = { λ a. record { files = a.files; failing = a.failing; calls = a.calls; reads = a.reads; writes = a.writes } };

    ghost invariant = { λ a. a.reads + a.writes ≤ a.calls };
}

impl MemDisk {
    /// A disk with these files and failing calls, which takes no memory.
    pub fn new(files: FileMap, failing: Fails) -> MemDisk
        ensures { result ≡ record { files = files; failing = failing; calls = 0; reads = 0; writes = 0 } }
    {
        MemDisk {
            files,
            failing,
            calls: 0,
            reads: 0,
            writes: 0,
        }
    }

    pub fn files(&self) -> &FileMap
        ensures { result.now ≡ self.now.files }
    {
        &self.files
    }
}

impl Disk for MemDisk {
    ghost held = { λ disk. Some disk.files };

    ghost reads = { λ disk. disk.reads };

    ghost writes = { λ disk. disk.writes };

    fn list(&mut self, alloc: Global, dir: &Text) -> Result<Paths, DiskStop>
        ensures listed { IfOk result (λ paths. paths ≡ listing dir.now self.old.files) }
        ensures fails { IsErrOf result DiskStop.Failed ↔ IsSome (keep_now self.old) }
        ensures after { self.new ≡ after_read self.old }
    {
        if next_call(&self.failing, &mut self.calls).is_some() {
            self.reads += 1;
            return Err(DiskStop::Failed);
        }
        Ok(list_files(&self.files, alloc, dir)?)
    }

    fn read(&mut self, alloc: Global, path: &Text, limit: u64) -> Result<Bytes, DiskStop>
        requires { IsTrue (finite.contains_key self.old.files path.now) }
        ensures bytes { IfOk result (λ bytes. IfSome (finite.get self.old.files path.now) (λ file. IsRead limit file bytes)) }
        ensures within { IfOk result (IsWithin limit) }
        ensures fails { IsErrOf result DiskStop.Failed ↔ IsSome (keep_now self.old) }
        ensures after { self.new ≡ after_read self.old }
    {
        if next_call(&self.failing, &mut self.calls).is_some() {
            self.reads += 1;
            return Err(DiskStop::Failed);
        }
        Ok(read_file(&self.files, alloc, path, limit)?)
    }

    fn write_new(&mut self, path: &Text, bytes: &[u8]) -> Result<(), DiskStop>
        requires { IsFalse (finite.contains_key self.old.files path.now) }
        ensures unlisted { OnOk result (keep_now self.old ≡ None) }
        ensures written { OnOk result (self.new ≡ record (called self.old) { files = finite.insert self.old.files path.now bytes.now }) }
        ensures failed { IsErrOf result DiskStop.Failed → IsSomeAnd (keep_now self.old) (λ keep. self.new ≡ record (called self.old) { files = finite.insert self.old.files path.now (take keep bytes.now); writes = self.old.writes + 1 }) }
        ensures memory { IsErrOf result DiskStop.Memory → self.new ≡ called self.old }
    {
        let Some(keep) = next_call(&self.failing, &mut self.calls) else {
            self.files.insert_copy(path, bytes)?;
            return Ok(());
        };
        let kept = bytes.len().min(keep as usize);
        self.files.insert_copy(path, &bytes[..kept])?;
        self.writes += 1;
        Err(DiskStop::Failed)
    }
}
