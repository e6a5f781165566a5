// The letters of a file: its characters with the Unicode escapes translated, and where each stands.

ghost use Rattle.std.specs.Prelude.{◌≡◌, ◌≢◌, ◌+◌, ◌-◌, ◌*◌, ◌^◌, ◌<◌, ◌≤◌, length, drop, slice_index, IsTrue, ◌&&◌};
ghost use Rattle.std.specs.Char.{digit_value};
ghost use Rattle.java_characters.specs.declared.letters.Front.TheVariants.{Letter};
ghost use Rattle.java_characters.specs.Letters.{is_tail, is_second, is_two, is_three, is_four, character_of, character_front, are_digits, four_digits, digits_at, escape_at, begins_escape, is_high, is_low, joined, next_escape, paired, some_front, raw_front, past_plain, past_escape, raw_at, end_without, letters, raw_seen, seen, start, IsAt, GoesOn, Takes, IsUnit};

use java_tree::Position;

/// Why a text ends.
#[derive(Clone, Copy, Debug)]
pub enum Ending {
    /// The file ends.
    File,
    /// A byte stands there that is no UTF-8.
    Byte,
    /// A `\u` stands there that four hexadecimal digits don't follow.
    Escape,
}

/// A place between two raw characters, with what came directly before it.
#[derive(Clone, Copy, Debug)]
pub struct Cursor {
    pub position: Position,
    /// A carriage return stands directly before.
    pub after_return: bool,
    /// An odd number of backslashes stands directly before.
    pub odd: bool,
}

/// What bytes begin with.
#[derive(Clone, Copy, Debug)]
pub enum RawFront {
    Stop(Ending),
    /// A character, and its length in bytes.
    Plain(u32, usize),
    /// The value of an escape, and its length in bytes.
    Escaped(u32, usize),
}

/// What a text begins with: its end, or a letter and the place behind it.
#[derive(Clone, Copy, Debug)]
pub enum Front {
    Stop(Ending, Position),
    Letter(u32, Cursor),
}

fn byte(bytes: &[u8], index: usize) -> u32
    ensures value { result ≡ slice_index bytes.now index }
    ensures byte { result < 256 }
    ensures within { result ≢ 0 → index < length bytes.now }
{
    if index < bytes.len() {
        bytes[index] as u32
    } else {
        0
    }
}

fn is_tail(b: u32) -> bool
    ensures value { result ≡ is_tail b }
    ensures low { IsTrue result → 0x80 ≤ b }
    ensures high { IsTrue result → b ≤ 0xBF }
{
    b >= 0x80 && b <= 0xBF
}

fn is_second(a: u32, b: u32) -> bool
    ensures value { result ≡ is_second a b }
    ensures low { IsTrue result → 0x80 ≤ b }
    ensures high { IsTrue result → b ≤ 0xBF }
    ensures last { IsTrue result → a ≡ 0xF4 → b ≤ 0x8F }
{
    if a == 0xE0 {
        b >= 0xA0 && b <= 0xBF
    } else if a == 0xF0 {
        b >= 0x90 && b <= 0xBF
    } else if a == 0xED {
        b >= 0x80 && b <= 0x9F
    } else if a == 0xF4 {
        b >= 0x80 && b <= 0x8F
    } else {
        is_tail(b)
    }
}

fn is_two(a: u32, b: u32) -> bool
    ensures value { result ≡ is_two a b }
    ensures first { IsTrue result → (0xC2 ≤ a) × (a ≤ 0xDF) }
    ensures tail { IsTrue result → (0x80 ≤ b) × (b ≤ 0xBF) }
{
    a >= 0xC2 && a <= 0xDF && is_tail(b)
}

fn is_three(a: u32, b: u32, c: u32) -> bool
    ensures value { result ≡ is_three a b c }
    ensures first { IsTrue result → (0xE0 ≤ a) × (a ≤ 0xEF) }
    ensures second { IsTrue result → (0x80 ≤ b) × (b ≤ 0xBF) }
    ensures tail { IsTrue result → (0x80 ≤ c) × (c ≤ 0xBF) }
{
    a >= 0xE0 && a <= 0xEF && is_second(a, b) && is_tail(c)
}

fn is_four(a: u32, b: u32, c: u32, d: u32) -> bool
    ensures value { result ≡ is_four a b c d }
    ensures first { IsTrue result → (0xF0 ≤ a) × (a ≤ 0xF4) }
    ensures second { IsTrue result → (0x80 ≤ b) × (b ≤ 0xBF) }
    ensures last { IsTrue result → a ≡ 0xF4 → b ≤ 0x8F }
    ensures third { IsTrue result → (0x80 ≤ c) × (c ≤ 0xBF) }
    ensures tail { IsTrue result → (0x80 ≤ d) × (d ≤ 0xBF) }
{
    a >= 0xF0 && a <= 0xF4 && is_second(a, b) && is_tail(c) && is_tail(d)
}

fn character_of(a: u32, b: u32, c: u32, d: u32) -> RawFront
    requires a { a < 256 }
    requires b { b < 256 }
    requires c { c < 256 }
    requires d { d < 256 }
    ensures { result ≡ character_of a b c d }
{
    if a < 0x80 {
        RawFront::Plain(a, 1)
    } else if is_two(a, b) {
        RawFront::Plain((a - 0xC0) * 64 + (b - 0x80), 2)
    } else if is_three(a, b, c) {
        RawFront::Plain(((a - 0xE0) * 64 + (b - 0x80)) * 64 + (c - 0x80), 3)
    } else if is_four(a, b, c, d) {
        RawFront::Plain(
            (((a - 0xF0) * 64 + (b - 0x80)) * 64 + (c - 0x80)) * 64 + (d - 0x80),
            4,
        )
    } else {
        RawFront::Stop(Ending::Byte)
    }
}

/// The character of UTF-8 that bytes begin with.
#[tactic(auto, unfolding(crate::specs::Letters::character_front))]
fn character_front(bytes: &[u8]) -> RawFront
    requires { 0 < length bytes.now }
    ensures value { result ≡ character_front bytes.now }
    ensures takes { Takes (length bytes.now) result }
    ensures unit { IsUnit result }
{
    character_of(
        byte(bytes, 0),
        byte(bytes, 1),
        byte(bytes, 2),
        byte(bytes, 3),
    )
}

/// The value of a hexadecimal digit, else a number from 16 on.
pub fn digit(b: u32) -> u32
    ensures value { result ≡ digit_value b }
    ensures small { result ≤ 36 }
    ensures some { result < 36 → b ≢ 0 }
{
    if b < 48 {
        36
    } else if b < 58 {
        b - 48
    } else if b < 65 {
        36
    } else if b < 91 {
        b - 55
    } else if b < 97 {
        36
    } else if b < 123 {
        b - 87
    } else {
        36
    }
}

fn are_digits(a: u32, b: u32, c: u32, d: u32) -> bool
    ensures value { result ≡ are_digits a b c d }
    ensures each { IsTrue result → (a < 16) × (b < 16) × (c < 16) × (d < 16) }
{
    a < 16 && b < 16 && c < 16 && d < 16
}

fn digits_at(taken: usize, bytes: &[u8]) -> RawFront
    requires { taken < 2 ^ 63 }
    ensures value { result ≡ digits_at taken bytes.now }
    ensures takes { Takes (taken + length bytes.now) result }
    ensures unit { IsUnit result }
{
    let a = digit(byte(bytes, 0));
    let b = digit(byte(bytes, 1));
    let c = digit(byte(bytes, 2));
    let d = digit(byte(bytes, 3));
    if are_digits(a, b, c, d) {
        RawFront::Escaped(((a * 16 + b) * 16 + c) * 16 + d, taken + 4)
    } else {
        RawFront::Stop(Ending::Escape)
    }
}

/// What stands behind a `\u`.
fn escape_at(bytes: &[u8]) -> RawFront
    requires { length bytes.now < 2 ^ 32 }
    ensures value { result ≡ escape_at 2 bytes.now }
    ensures takes { Takes (2 + length bytes.now) result }
    ensures unit { IsUnit result }
{
    let mut marks = 0;
    while marks < bytes.len() && bytes[marks] == b'u' {
        marks += 1;
    }
    digits_from(bytes, marks)
}

fn digits_from(bytes: &[u8], from: usize) -> RawFront
    requires room { length bytes.now < 2 ^ 32 }
    requires within { from ≤ length bytes.now }
    ensures value { result ≡ digits_at (from + 2) (drop from bytes.now) }
    ensures takes { Takes (2 + length bytes.now) result }
    ensures unit { IsUnit result }
{
    digits_at(from + 2, &bytes[from..])
}

fn begins_escape(bytes: &[u8]) -> bool
    ensures value { result ≡ begins_escape bytes.now }
    ensures room { IsTrue result → 2 ≤ length bytes.now }
{
    bytes.len() >= 2 && bytes[0] == b'\\' && bytes[1] == b'u'
}

fn is_pair(high: u32, low: u32) -> bool
    ensures value { result ≡ (is_high high && is_low low) }
    ensures high { IsTrue result → (0xD800 ≤ high) × (high ≤ 0xDBFF) }
    ensures low { IsTrue result → (0xDC00 ≤ low) × (low ≤ 0xDFFF) }
{
    high >= 0xD800 && high <= 0xDBFF && low >= 0xDC00 && low <= 0xDFFF
}

fn joined(code: u32, taken: usize, next: RawFront, len: usize) -> RawFront
    requires room { taken + len < 2 ^ 64 }
    requires some { 0 < taken }
    requires code { code < 2 ^ 16 }
    requires next { Takes len next }
    ensures value { result ≡ joined code taken next }
    ensures takes { Takes (taken + len) result }
{
    match next {
        RawFront::Escaped(low, more) => {
            if is_pair(code, low) {
                let joined = 0x1_0000 + ((code - 0xD800) * 0x400 + (low - 0xDC00));
                RawFront::Escaped(joined, taken + more)
            } else {
                RawFront::Escaped(code, taken)
            }
        }
        _ => RawFront::Escaped(code, taken),
    }
}

/// The escape that bytes begin with, if one does.
fn next_escape(bytes: &[u8]) -> RawFront
    requires { length bytes.now < 2 ^ 32 }
    ensures value { result ≡ next_escape bytes.now }
    ensures takes { Takes (length bytes.now) result }
    ensures unit { IsUnit result }
{
    if begins_escape(bytes) {
        escape_at(&bytes[2..])
    } else {
        RawFront::Stop(Ending::File)
    }
}

fn paired(front: RawFront, bytes: &[u8]) -> RawFront
    requires room { length bytes.now < 2 ^ 32 }
    requires takes { Takes (length bytes.now) front }
    requires unit { IsUnit front }
    ensures value { result ≡ paired front bytes.now }
    ensures takes { Takes (length bytes.now) result }
{
    match front {
        RawFront::Escaped(code, taken) => {
            let rest = &bytes[taken..];
            joined(code, taken, next_escape(rest), rest.len())
        }
        other => other,
    }
}

/// What bytes begin with, behind an odd or even number of backslashes.
#[tactic(auto, unfolding(crate::specs::Letters::raw_front))]
fn raw_front(odd: bool, bytes: &[u8]) -> RawFront
    requires { length bytes.now < 2 ^ 32 }
    ensures value { result ≡ raw_front odd bytes.now }
    ensures takes { Takes (length bytes.now) result }
{
    let [_, ..] = bytes else {
        return RawFront::Stop(Ending::File);
    };
    if !odd && begins_escape(bytes) {
        paired(escape_at(&bytes[2..]), bytes)
    } else {
        character_front(bytes)
    }
}

fn past_plain(at: Cursor, code: u32, taken: usize) -> Cursor
    requires room { at.position.offset + taken < 2 ^ 32 - 1 }
    requires line { at.position.line ≤ at.position.offset + 1 }
    requires column { at.position.column ≤ at.position.offset + 1 }
    requires some { 0 < taken }
    ensures value { result ≡ past_plain at code taken }
    ensures offset { result.position.offset ≡ at.position.offset + taken }
    ensures line_in { result.position.line ≤ result.position.offset + 1 }
    ensures column_in { result.position.column ≤ result.position.offset + 1 }
{
    let taken = taken as u32;
    let ends = code == 13 || (code == 10 && !at.after_return);
    let begins = code == 13 || code == 10;
    let line_behind = at.position.line + 1;
    let column_behind = at.position.column + taken;
    Cursor {
        position: Position {
            offset: at.position.offset + taken,
            line: if ends { line_behind } else { at.position.line },
            column: if begins { 1 } else { column_behind },
        },
        after_return: code == 13,
        odd: code == 92 && !at.odd,
    }
}

fn past_escape(at: Cursor, taken: usize) -> Cursor
    requires room { at.position.offset + taken < 2 ^ 32 - 1 }
    requires line { at.position.line ≤ at.position.offset + 1 }
    requires column { at.position.column ≤ at.position.offset + 1 }
    ensures value { result ≡ past_escape at taken }
    ensures offset { result.position.offset ≡ at.position.offset + taken }
    ensures line_in { result.position.line ≤ result.position.offset + 1 }
    ensures column_in { result.position.column ≤ result.position.offset + 1 }
{
    let taken = taken as u32;
    Cursor {
        position: Position {
            offset: at.position.offset + taken,
            line: at.position.line,
            column: at.position.column + taken,
        },
        after_return: false,
        odd: false,
    }
}

fn raw_front_at(bytes: &[u8], at: Cursor) -> RawFront
    requires { IsAt bytes.now at }
    ensures value { result ≡ raw_front at.odd (drop at.position.offset bytes.now) }
    ensures takes { Takes (length bytes.now - at.position.offset) result }
{
    raw_front(at.odd, &bytes[at.position.offset as usize..])
}

/// What the text begins with at a place of the bytes, a final U+001A taken for a letter.
fn raw_at(bytes: &[u8], at: Cursor) -> Front
    requires { IsAt bytes.now at }
    ensures value { raw_at bytes.now at ≡ raw_seen bytes.now at result }
    ensures goes_on { GoesOn bytes.now at result }
{
    match raw_front_at(bytes, at) {
        RawFront::Stop(ending) => Front::Stop(ending, at.position),
        RawFront::Plain(code, taken) => Front::Letter(code, past_plain(at, code, taken)),
        RawFront::Escaped(code, taken) => Front::Letter(code, past_escape(at, taken)),
    }
}

fn end_without(ending: Ending, last: Position, end: Position) -> Position
    ensures { result ≡ end_without ending last end }
{
    match ending {
        Ending::File => last,
        _ => end,
    }
}

/// What the text begins with at a U+001A, which is ignored where nothing follows it.
fn last_front(bytes: &[u8], at: Cursor, next: Cursor) -> Front
    requires at { IsAt bytes.now next }
    requires behind { at.position.offset < next.position.offset }
    requires letter { raw_at bytes.now at ≡ raw_seen bytes.now at (Letter 26 next) }
    ensures value { letters bytes.now at ≡ seen bytes.now at result }
    ensures goes_on { GoesOn bytes.now at result }
{
    match raw_at(bytes, next) {
        Front::Stop(ending, end) => Front::Stop(ending, end_without(ending, at.position, end)),
        Front::Letter(_, _) => Front::Letter(26, next),
    }
}

/// What the text begins with at a place of the bytes.
pub fn front_at(bytes: &[u8], at: Cursor) -> Front
    requires { IsAt bytes.now at }
    ensures value { letters bytes.now at ≡ seen bytes.now at result }
    ensures goes_on { GoesOn bytes.now at result }
{
    match raw_at(bytes, at) {
        Front::Stop(ending, end) => Front::Stop(ending, end),
        Front::Letter(code, next) => {
            if code == 26 {
                last_front(bytes, at, next)
            } else {
                Front::Letter(code, next)
            }
        }
    }
}

/// The place where a file begins.
pub fn start() -> Cursor
    ensures { result ≡ start }
{
    Cursor {
        position: Position {
            offset: 0,
            line: 1,
            column: 1,
        },
        after_return: false,
        odd: false,
    }
}
