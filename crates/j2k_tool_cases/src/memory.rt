// Runs over files in memory.

use crate::parts::{fails_of, files_of, put_ending, put_shown, words_of};
use j2k_base::{FileMap, NoMemory, Words};
use j2k_io::{Fails, MemDisk, MemSink, SteadyDisk};
use j2k_tool::run;
use std::alloc::Global;

pub fn run_steady(
    alloc: Global,
    text: &[u8],
    with_files: bool,
    out: &mut String,
) -> Result<(), NoMemory> {
    let words = words_of(alloc, text)?;
    let mut disk = SteadyDisk::new(files_of(alloc, text)?);
    put_steady(alloc, &words, &mut disk, out)?;
    if with_files {
        put_changes(alloc, text, disk.files(), out)?;
    }
    Ok(())
}

fn put_steady(
    alloc: Global,
    words: &Words,
    disk: &mut SteadyDisk,
    out: &mut String,
) -> Result<(), NoMemory> {
    let mut sink = MemSink::new(alloc, Fails::new(alloc));
    let status = run(alloc, words, disk, &mut sink);
    put_ending(out, status, sink.bytes())
}

pub fn run_failing(alloc: Global, text: &[u8], out: &mut String) -> Result<(), NoMemory> {
    let words = words_of(alloc, text)?;
    let mut disk = failing_disk(alloc, text)?;
    put_failing(alloc, text, &words, &mut disk, out)?;
    put_changes(alloc, text, disk.files(), out)
}

fn failing_disk(alloc: Global, text: &[u8]) -> Result<MemDisk, NoMemory> {
    let files = files_of(alloc, text)?;
    let fails = fails_of(alloc, text, "call")?;
    Ok(MemDisk::new(files, fails))
}

fn put_failing(
    alloc: Global,
    text: &[u8],
    words: &Words,
    disk: &mut MemDisk,
    out: &mut String,
) -> Result<(), NoMemory> {
    let mut sink = MemSink::new(alloc, fails_of(alloc, text, "put")?);
    let status = run(alloc, words, disk, &mut sink);
    put_ending(out, status, sink.bytes())
}

/// The files that are not as they were.
fn put_changes(
    alloc: Global,
    text: &[u8],
    files: &FileMap,
    out: &mut String,
) -> Result<(), NoMemory> {
    let before = files_of(alloc, text)?;
    for (path, bytes) in files.entries() {
        let old = before.get(path);
        if !old.is_some_and(|old| old.as_slice() == bytes.as_slice()) {
            put_shown(out, path.as_str(), bytes.as_slice())?;
        }
    }
    Ok(())
}
