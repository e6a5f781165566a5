//! The tool over small projects, each in a row of standard input.
//!
//! A row has parts, with a byte `\x1f` between them. The first has the words of the command line, with a blank between them.
//! A further part is a file as `PATH=BYTES`; so many empty Java files as `files 2000`; a failing call of the disk as
//! `call 4 10`, its number and what it keeps; a failing put as `put 1 9`; or a file to be shown afterwards as `show PATH`.
//!
//! - `run`: over a disk that never fails. The answer has the exit status, what is printed, and each file that is new or changed.
//! - `says`: the same without the files.
//! - `fails`: over a disk and an output that fail where the parts say it.
//! - `real`: over the file system. The answer has the files that the row shows.
//! - `calls`: calls of the file system alone, with a file as `PATH=BYTES`.
#![tactic(auto)]

mod memory;
mod parts;
mod real;

use case_rows::answer_rows;
use j2k_base::NoMemory;
use std::alloc::Global;
use std::io;
use std::rt::Files;

fn main(rt: HostRuntime) -> io::Result<()> {
    answer_rows(&rt, |alloc, word, text, out| {
        answer(&rt, alloc, word, text, out)
    })
}

fn answer<R: Files + AllocGlobal>(
    rt: &R,
    alloc: Global,
    word: &str,
    text: &[u8],
    out: &mut String,
) -> Result<(), NoMemory> {
    match word {
        "run" => memory::run_steady(alloc, text, true, out),
        "says" => memory::run_steady(alloc, text, false, out),
        "fails" => memory::run_failing(alloc, text, out),
        "real" => real::run_real(rt, text, out),
        "calls" => real::put_calls(rt, text, out),
        _ => Ok(out.push_str("no such word")?),
    }
}
