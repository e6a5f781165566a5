// Texts in UTF-8, seen by contracts as their bytes.
ghost use Rattle.std.specs.Prelude.{◌≡◌, ◌<◌, [], ◌++◌, length, slice_get, encode_utf8, string_bytes, Some, IfOk, OnOk, OnErr};

use crate::NoMemory;
use std::alloc::Global;
use std::marker::Model;

/// A text, seen by contracts as the list of its bytes.
#[derive(Debug, Drop)]
pub struct Text {
    string: String,
}

impl Model for Text {
    ghost use Rattle.std.specs.Prelude.{List, ℕ, string_bytes};

    ghost Value = { List ℕ };

    ghost view = { λ a. string_bytes a.string };
}

impl Text {
    /// An empty text, which takes no memory.
    pub fn new(alloc: Global) -> Text
        ensures { result ≡ [] }
    {
        Text {
            string: String::new(alloc),
        }
    }

    pub fn from_str(alloc: Global, text: &str) -> Result<Text, NoMemory>
        ensures { IfOk result (λ copy. copy ≡ text.now) }
    {
        let string = String::from_str(alloc, text)?;
        Ok(Text { string })
    }

    pub fn from_string(string: String) -> Text
        ensures { result ≡ string_bytes string }
    {
        Text { string }
    }

    /// How many bytes it has.
    pub fn len(&self) -> usize
        ensures { result ≡ length self.now }
    {
        self.string.len()
    }

    /// A byte of the text.
    pub fn get(&self, at: usize) -> &u8
        requires { at < length self.now }
        ensures { slice_get self.now at ≡ Some result.now }
    {
        &self.string.as_bytes()[at]
    }

    /// Appends the UTF-8 bytes of a character.
    pub fn push(&mut self, character: char) -> Result<(), NoMemory>
        ensures ok { OnOk result (self.new ≡ self.old ++ encode_utf8 character) }
        ensures err { OnErr result (self.new ≡ self.old) }
    {
        self.string.push(character)?;
        Ok(())
    }

    pub fn push_str(&mut self, more: &str) -> Result<(), NoMemory>
        ensures ok { OnOk result (self.new ≡ self.old ++ more.now) }
        ensures err { OnErr result (self.new ≡ self.old) }
    {
        self.string.push_str(more)?;
        Ok(())
    }

    pub fn as_str(&self) -> &str
        ensures { result.now ≡ self.now }
    {
        self.string.as_str()
    }

    pub fn as_bytes(&self) -> &[u8]
        ensures { result.now ≡ self.now }
    {
        self.string.as_bytes()
    }
}
