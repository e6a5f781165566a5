//! Arguments.

ghost use Rattle.java_token_cursor.specs.Shown.{shown};
ghost use Rattle.java_type_parser.specs.Gives.{Gives, Always};
ghost use Rattle.java_statement_grammar.specs.Reading as h;
ghost use Rattle.java_declaration_parser.specs.Found.{args_found};

use crate::found::ArgsFound;
use j2k_base::NoMemory;
use java_exprs::{ExprsFound, arguments};
use java_token_cursor::{Pieces, close};
use java_type_parser::let_go;
use std::alloc::Global;

/// Arguments no deeper than `depth` and the `)` behind them, and the pieces after it.
#[tactic(auto, unfolding(java_statement_grammar::specs::Reading::args_read))]
pub fn args_read<'a>(
    alloc: Global,
    pieces: Pieces<'a>,
    depth: usize,
) -> Result<Option<(ArgsFound, Pieces<'a>)>, NoMemory>
    ensures { Gives args_found Always (h.args_read depth (shown pieces.now)) result }
{
    let Some((args, rest)) = arguments(alloc, pieces, depth)? else {
        return Ok(None);
    };
    let Some((close, rest)) = close(rest) else {
        let_go(args);
        return Ok(None);
    };
    let ExprsFound {
        items,
        commas,
        deepest: _,
    } = args;
    Ok(Some((
        ArgsFound {
            items,
            commas,
            close,
        },
        rest,
    )))
}
