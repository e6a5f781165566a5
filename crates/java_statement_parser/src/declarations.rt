//! Declarations of variables.

ghost use Rattle.java_token_cursor.specs.Shown.{shown};
ghost use Rattle.java_type_parser.specs.Gives.{Gives, Always};
ghost use Rattle.java_statement_grammar.specs.Reading as h;
ghost use Rattle.java_declaration_parser.specs.Found.{found};

use crate::begins::final_first;
use j2k_base::NoMemory;
use java_declaration_parser::declaration_of;
use java_statement_grammar::JDeclaration;
use java_token_cursor::Pieces;
use java_type_parser::read_type;
use std::alloc::Global;

/// A declaration that comes first.
#[tactic(auto, unfolding(java_statement_grammar::specs::Reading::declaration_read))]
pub fn declaration_read<'a>(
    alloc: Global,
    pieces: Pieces<'a>,
    depth: usize,
) -> Result<Option<(JDeclaration, Pieces<'a>)>, NoMemory>
    ensures { Gives found Always (h.declaration_read depth (shown pieces.now)) result }
{
    let (is_final, rest) = final_first(pieces);
    let Some((kind, rest)) = read_type(alloc, rest, depth)? else {
        return Ok(None);
    };
    declaration_of(alloc, depth, is_final, kind.tree, rest)
}
