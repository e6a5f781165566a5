// Runs over the file system.

use crate::parts::{file_of, is_mark, put_ending, put_shown, text_of, words_of};
use j2k_base::{NoMemory, Text};
use j2k_io::{Bytes, Disk, DiskStop, Fails, MemSink, RealDisk};
use j2k_tool::run;
use std::fs;
use std::rt::Files;

pub fn run_real<R: Files + AllocGlobal>(
    rt: &R,
    text: &[u8],
    out: &mut String,
) -> Result<(), NoMemory> {
    for part in text.split(is_mark) {
        make_file(rt, part);
    }
    put_run(rt, text, out)?;
    for part in text.split(is_mark) {
        show_file(rt, text_of(part), out)?;
    }
    Ok(())
}

fn put_run<R: Files + AllocGlobal>(rt: &R, text: &[u8], out: &mut String) -> Result<(), NoMemory> {
    let alloc = rt.alloc();
    let words = words_of(alloc, text)?;
    let mut sink = MemSink::new(alloc, Fails::new(alloc));
    let status = run(alloc, &words, &mut RealDisk::new(rt), &mut sink);
    put_ending(out, status, sink.bytes())
}

/// Makes the file of a part `PATH=BYTES`, and the folder that it lies in.
fn make_file<R: Files + AllocGlobal>(rt: &R, part: &[u8]) {
    if let Some((path, bytes)) = file_of(part) {
        if let Some((folder, _)) = path.rsplit_once('/') {
            let _ = fs::create_dir_all(rt, folder);
        }
        let _ = fs::write(rt, path, bytes);
    }
}

/// Shows the file of a part `show PATH`.
fn show_file<R: Files + AllocGlobal>(rt: &R, part: &str, out: &mut String) -> Result<(), NoMemory> {
    if let Some(path) = part.strip_prefix("show ") {
        if let Ok(bytes) = fs::read(rt, path) {
            put_shown(out, path, bytes.as_slice())?;
        }
    }
    Ok(())
}

/// Whether the part `PATH=BYTES` names a file that is not there, can be made, can't be made again, is read within its length,
/// and is longer than one byte less.
pub fn put_calls<R: Files + AllocGlobal>(
    rt: &R,
    text: &[u8],
    out: &mut String,
) -> Result<(), NoMemory> {
    let alloc = rt.alloc();
    let (path, bytes) = file_of(text).unwrap_or(("", &[]));
    let path = Text::from_str(alloc, path)?;
    let length = bytes.len() as u64;
    let mut disk = RealDisk::new(rt);
    let is_missing = disk.read(alloc, &path, length).is_err();
    let is_made = disk.write_new(&path, bytes).is_ok();
    let is_kept = disk.write_new(&path, &[]).is_err();
    let is_whole = is_read(disk.read(alloc, &path, length), bytes);
    let is_over = matches!(
        disk.read(alloc, &path, length.saturating_sub(1)),
        Ok(Bytes::Over)
    );
    Ok(write!(out, "{is_missing} {is_made} {is_kept} {is_whole} {is_over}")?)
}

fn is_read(answer: Result<Bytes, DiskStop>, want: &[u8]) -> bool {
    match answer {
        Ok(Bytes::Whole(bytes)) => bytes.as_slice() == want,
        Ok(Bytes::Over) => false,
        Err(_) => false,
    }
}
