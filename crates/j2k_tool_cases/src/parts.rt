// The parts of a row.

use j2k_base::{FileMap, NoMemory, Text, Words};
use j2k_io::{Fail, Fails};
use j2k_tool::Status;
use std::alloc::Global;

pub fn is_mark(byte: &u8) -> bool {
    *byte == 0x1f
}

fn is_blank(byte: &u8) -> bool {
    *byte == b' '
}

/// The text of bytes in UTF-8, and none of others.
pub fn text_of(bytes: &[u8]) -> &str {
    str::from_utf8(bytes).unwrap_or("")
}

fn number_of(digits: &str) -> u32 {
    u32::from_str_radix(digits, 10).unwrap_or(0)
}

/// The path and the bytes of a part that is a file.
pub fn file_of(part: &[u8]) -> Option<(&str, &[u8])> {
    let at = part.iter().position(|byte| *byte == b'=')?;
    let (path, rest) = part.split_at_checked(at)?;
    let (_, bytes) = rest.split_first()?;
    Some((text_of(path), bytes))
}

/// The words of the first part, and none where it is empty.
pub fn words_of(alloc: Global, text: &[u8]) -> Result<Words, NoMemory> {
    let mut words = Words::new(alloc);
    let first = text.split(is_mark).next().unwrap_or(&[]);
    if !first.is_empty() {
        for word in first.split(is_blank) {
            words.push(Text::from_str(alloc, text_of(word))?)?;
        }
    }
    Ok(words)
}

/// The files of all parts.
pub fn files_of(alloc: Global, text: &[u8]) -> Result<FileMap, NoMemory> {
    let mut files = FileMap::new(alloc);
    for part in text.split(is_mark) {
        match file_of(part) {
            Some((path, bytes)) => put_file(alloc, &mut files, path, bytes)?,
            None => put_numbered(alloc, &mut files, text_of(part))?,
        }
    }
    Ok(files)
}

fn put_file(alloc: Global, files: &mut FileMap, path: &str, bytes: &[u8]) -> Result<(), NoMemory> {
    let path = Text::from_str(alloc, path)?;
    files.insert_copy(&path, bytes)
}

/// The empty Java files of a part `files 2000`.
fn put_numbered(alloc: Global, files: &mut FileMap, part: &str) -> Result<(), NoMemory> {
    let count = number_of(part.strip_prefix("files ").unwrap_or(""));
    for number in 0..count {
        let path = format!(in alloc; "src/{number}.java")?;
        files.insert_copy(&Text::from_string(path), &[])?;
    }
    Ok(())
}

/// The failing calls that the parts name by a word, as `call` and `put`.
pub fn fails_of(alloc: Global, text: &[u8], word: &str) -> Result<Fails, NoMemory> {
    let mut fails = Fails::new(alloc);
    for part in text.split(is_mark) {
        if let Some(fail) = fail_of(text_of(part), word) {
            fails.push(fail)?;
        }
    }
    Ok(fails)
}

fn fail_of(part: &str, word: &str) -> Option<Fail> {
    let (first, rest) = part.split_once(' ')?;
    let (call, keep) = rest.split_once(' ')?;
    if first != word {
        return None;
    }
    Some(Fail {
        call: number_of(call),
        keep: number_of(keep),
    })
}

/// The exit status, and what was printed.
pub fn put_ending(out: &mut String, status: Status, printed: &[u8]) -> Result<(), NoMemory> {
    let number = status as u8;
    write!(out, "{number} | ")?;
    out.push_str(text_of(printed))?;
    Ok(())
}

pub fn put_shown(out: &mut String, path: &str, bytes: &[u8]) -> Result<(), NoMemory> {
    out.push_str(" | ")?;
    out.push_str(path)?;
    out.push_str("=")?;
    out.push_str(text_of(bytes))?;
    Ok(())
}
