// From standard input to standard output.

use crate::decoded;
use j2k_base::NoMemory;
use std::alloc::Global;
use std::io;
use std::io::{BufRead, BufReader, ErrorKind};

/// A text on one line.
fn put_line(out: &mut String, text: &str) -> Result<(), NoMemory> {
    for letter in text.chars() {
        match letter {
            '\n' => out.push_str("\\n")?,
            other => out.push(other)?,
        }
    }
    Ok(())
}

fn put_answer<F: Fn(Global, &str, &[u8], &mut String) -> Result<(), NoMemory>>(
    alloc: Global,
    row: &str,
    answer: &F,
    out: &mut String,
) -> Result<(), NoMemory>
    requires { F.IsAlwaysCallable answer.now }
{
    match row.split_once(' ') {
        Some((word, text)) => {
            let bytes = decoded(alloc, text.as_bytes())?;
            answer(alloc, word, bytes.as_slice(), out)
        }
        None => answer(alloc, row, &[], out),
    }
}

/// The line that is printed for a line that was read.
fn answered<F: Fn(Global, &str, &[u8], &mut String) -> Result<(), NoMemory>>(
    alloc: Global,
    line: &str,
    answer: &F,
) -> Result<String, NoMemory>
    requires { F.IsAlwaysCallable answer.now }
{
    let mut found = String::new(alloc);
    let mut out = String::new(alloc);
    if line.is_empty() || line.starts_with('#') {
        out.push_str(line)?;
    } else {
        put_answer(alloc, line, answer, &mut found)?;
        put_line(&mut out, found.as_str())?;
    }
    Ok(out)
}

/// Goes over the lines of standard input, and prints the answer on the word and the decoded text of each row.
pub fn answer_rows<R, F>(rt: &R, answer: F) -> io::Result<()>
where
    R: Input + Print + AllocGlobal,
    F: Fn(Global, &str, &[u8], &mut String) -> Result<(), NoMemory>,
    requires { F.IsAlwaysCallable answer }
{
    let alloc = rt.alloc();
    for line in BufReader::new(alloc, rt.reader())?.lines(alloc) {
        let line = line?;
        match answered(alloc, line.as_str(), &answer) {
            Ok(out) => println!(rt; "{out}")?,
            Err(_) => return Err(io::Error::from(ErrorKind::OutOfMemory)),
        }
    }
    Ok(())
}
