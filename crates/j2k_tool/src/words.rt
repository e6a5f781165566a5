// What the words of the command line ask for.
ghost use Rattle.std.specs.Prelude.{◌≡◌, ◌∷◌, ◌<◌, ◌≤◌, [], length, IfSome, IfNone};
ghost use Rattle.std.specs.Option.{option_map};
ghost use Rattle.j2k_tool.specs.Words.{is_step as is_step_of, part_of, after_part, steps, is_rooted as is_rooted_by, parts, leads_out as leads_out_of, meet as meet_of, are_folders as are_folders_of, words_mean};

use crate::texts::{CONVERT, DOT, DOTS, SLASH};
use j2k_base::{Text, Words};
use std::marker::Model;

/// The two folders of `convert SRC DST`.
pub fn folders(words: &Words) -> Option<(&Text, &Text)>
    ensures { option_map (λ pair. (pair.0.now, pair.1.now)) result ≡ words_mean words.now }
{
    match words.as_slice() {
        [command, src, dst]
            if command.as_str() == CONVERT && are_folders(src.as_bytes(), dst.as_bytes()) => {
            Some((src, dst))
        }
        _ => None,
    }
}

/// Whether neither path is empty, and neither folder lies in the other by their names.
fn are_folders(src: &[u8], dst: &[u8]) -> bool
    ensures { result ≡ are_folders_of src.now dst.now }
{
    !src.is_empty() && !dst.is_empty() && !meet(parts_of(src), parts_of(dst))
}

/// The parts of a path that are left, seen by contracts as their list.
#[derive(Drop)]
struct PathParts<'a> {
    rooted: bool,
    rest: &'a [u8],
}

impl<'a> Model for PathParts<'a> {
    ghost use Rattle.std.specs.Prelude.{List, ℕ};
    ghost use Rattle.j2k_tool.specs.Words.{parts_left};

    ghost Value = { List (List ℕ) };

    ghost view = { λ a. parts_left a.rooted a.rest.now };
}

impl<'a> PathParts<'a> {
    fn next(&mut self) -> Option<&'a [u8]>
        ensures some { IfSome result (λ part. self.old ≡ part.now ∷ self.new) }
        ensures none { IfNone result (self.old ≡ []) }
    {
        if self.rooted {
            self.rooted = false;
            return Some(SLASH.as_bytes());
        }
        let (step, rest) = next_step(self.rest);
        self.rest = rest;
        step
    }
}

fn parts_of<'a>(path: &'a [u8]) -> PathParts<'a>
    ensures { result ≡ parts path.now }
{
    PathParts {
        rooted: is_rooted(path),
        rest: path,
    }
}

fn is_rooted(path: &[u8]) -> bool
    ensures { result ≡ is_rooted_by path.now }
{
    match path {
        [b'/', ..] => true,
        _ => false,
    }
}

/// The first step of a path, and what stands after it.
#[tactic(auto, using(crate::proofs::Steps::cut_steps))]
fn next_step<'a>(path: &'a [u8]) -> (Option<&'a [u8]>, &'a [u8])
    ensures some { IfSome result.0 (λ step. steps path.now ≡ step.now ∷ steps result.1.now) }
    ensures none { IfNone result.0 (steps path.now ≡ []) }
{
    let mut rest = path;
    while !rest.is_empty() {
        let (part, more) = cut(rest);
        rest = more;
        if is_step(part) {
            return (Some(part), rest);
        }
    }
    (None, rest)
}

/// What stands before the first slash, and what stands after it.
fn cut<'a>(path: &'a [u8]) -> (&'a [u8], &'a [u8])
    requires { 0 < length path.now }
    ensures part { result.0.now ≡ part_of path.now }
    ensures rest { result.1.now ≡ after_part path.now }
    ensures shorter { length result.1.now < length path.now }
{
    let at = part_len(path);
    if at < path.len() {
        (&path[..at], &path[at + 1..])
    } else {
        (path, &[])
    }
}

fn part_len(path: &[u8]) -> usize
    ensures value { result ≡ length (part_of path.now) }
    ensures within { result ≤ length path.now }
{
    path.iter().take_while(|byte| **byte != b'/').count()
}

fn is_step(part: &[u8]) -> bool
    ensures { result ≡ is_step_of part.now }
{
    !part.is_empty() && part != DOT.as_bytes()
}

fn leads_out(part: &[u8]) -> bool
    ensures { result ≡ leads_out_of part.now }
{
    part == DOTS.as_bytes()
}

fn meet(mut firsts: PathParts, mut seconds: PathParts) -> bool
    ensures { result ≡ meet_of firsts.entry seconds.entry }
{
    loop {
        match (firsts.next(), seconds.next()) {
            (None, None) => return true,
            (None, Some(part)) => return !leads_out(part),
            (Some(part), None) => return !leads_out(part),
            (Some(first), Some(second)) => {
                if first != second {
                    return false;
                }
            }
        }
    }
}
