//! Rows of cases: a line of standard input names a call and its text, and a line of standard output answers it. A heading
//! `# ..` and an empty line stay as they are. The text of a row is written with escapes: `\n`, `\t`, `\r` and `\\`, a byte
//! `\xHH`, and so many of a part as `\(200:..\)`.
#![tactic(auto)]

mod escapes;
mod rows;

pub use escapes::decoded;
pub use rows::answer_rows;
