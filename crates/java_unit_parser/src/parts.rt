//! A line.

ghost use Rattle.std.specs.Prelude.{◌≡◌, ◌≤◌, length};
ghost use Rattle.java_unit_grammar.specs.Reading as r;
ghost use Rattle.java_token_cursor.specs.Shown.{shown};

use java_body_cuts::line;
use java_token_cursor::Pieces;

/// The pieces as far as the first `;`, and those behind it.
#[tactic(auto, using(crate::proofs::Lengths::lengths))]
pub fn at_line<'a>(pieces: Pieces<'a>) -> (Pieces<'a>, Pieces<'a>)
    ensures same { (shown result.0.now, shown result.1.now) ≡ r.line (shown pieces.now) }
    ensures shorter { length result.1.now ≤ length pieces.now }
{
    line(pieces)
}
