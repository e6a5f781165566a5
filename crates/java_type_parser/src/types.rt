//! Types.

ghost use Rattle.std.specs.Prelude.{◌≡◌, ◌≤◌, ◌<◌, ◌+◌, length, max};
ghost use Rattle.java_tree.specs.Trees as s;
ghost use Rattle.java_token_cursor.specs.Shown.{shown};
ghost use Rattle.java_token_cursor.specs.Heads.{Finds};
ghost use Rattle.java_expr_grammar.specs.Reading as r;
ghost use Rattle.java_type_parser.specs.Gives.{Gives, TypeFits, TypesFit, type_found, types_found};

use crate::exits::let_go;
use crate::found_or_let_go;
use crate::names::{brackets, onward, qualified};
use j2k_base::NoMemory;
use java_token_cursor::{Head, Pieces, comma, first};
use java_tree::{JBrackets, JQualified, JType, Keyword, Mark, Position, Primitive};
use sqlite_items::{Boxed, Items};
use std::alloc::Global;

/// A type and its depth.
#[derive(Drop)]
pub struct TypeFound {
    pub tree: JType,
    pub depth: usize,
}

/// Types, the commas between them, and the depth of the deepest.
#[derive(Drop)]
pub struct TypesFound {
    pub items: Items<JType>,
    pub commas: Items<Position>,
    pub deepest: usize,
}

/// The primitive type that the word names.
pub fn primitive(word: Keyword) -> Option<Primitive>
    ensures { result ≡ r.primitive_by word }
{
    match word {
        Keyword::Byte => Some(Primitive::Byte),
        Keyword::Short => Some(Primitive::Short),
        Keyword::Char => Some(Primitive::Char),
        Keyword::Int => Some(Primitive::Int),
        Keyword::Long => Some(Primitive::Long),
        Keyword::Boolean => Some(Primitive::Boolean),
        _ => None,
    }
}

/// The `>` that comes first, and whether another `>` or a `=` stands directly behind it.
pub fn closes<'a>(pieces: Pieces<'a>) -> Option<((bool, Position), Pieces<'a>)>
    ensures { Finds (r.closes (shown pieces.now)) result }
{
    match first(pieces) {
        Head::Mark(Mark::Greater, at, rest) => Some(((false, at), rest)),
        Head::Mark(Mark::GreaterJoined, at, rest) => Some(((true, at), rest)),
        _ => None,
    }
}

/// The larger of two numbers.
pub fn larger(a: usize, b: usize) -> usize
    ensures { result ≡ max a b }
{
    if a < b { b } else { a }
}

/// The type at the front, no deeper than `depth`, and the pieces after it.
#[cycle(types)]
#[tactic(auto, using(crate::proofs::Rules::rules), unfolding(java_expr_grammar::specs::Reading::type_read))]
pub fn read_type<'a>(
    alloc: Global,
    pieces: Pieces<'a>,
    depth: usize,
) -> Result<Option<(TypeFound, Pieces<'a>)>, NoMemory>
    ensures { Gives type_found (TypeFits depth) (r.type_read depth (shown pieces.now)) result }
{
    if depth == 0 {
        return Ok(None);
    }
    let Some((found, rest)) = base_step(alloc, pieces, depth - 1)? else {
        return Ok(None);
    };
    let Ok((pairs, rest)) = brackets(alloc, rest) else {
        let_go(found);
        return Err(NoMemory);
    };
    array_by(alloc, depth - 1, found, pairs, rest)
}

/// The same, where it is no array.
#[tactic(auto, using(crate::proofs::Rules::rules), unfolding(java_expr_grammar::specs::Reading::base_read))]
pub fn read_base<'a>(
    alloc: Global,
    pieces: Pieces<'a>,
    depth: usize,
) -> Result<Option<(TypeFound, Pieces<'a>)>, NoMemory>
    ensures { Gives type_found (TypeFits depth) (r.base_read depth (shown pieces.now)) result }
{
    if depth == 0 {
        return Ok(None);
    }
    base_step(alloc, pieces, depth - 1)
}

/// An array of what was found, where brackets stand behind it; the parts are no deeper than `depth`.
#[tactic(auto, using(crate::proofs::Rules::arrays))]
fn array_by<'a>(
    alloc: Global,
    depth: usize,
    found: TypeFound,
    pairs: Items<JBrackets>,
    pieces: Pieces<'a>,
) -> Result<Option<(TypeFound, Pieces<'a>)>, NoMemory>
    requires room { depth < usize.MAX }
    requires fits { TypeFits (depth + 1) (found, pieces) }
    ensures { Gives type_found (TypeFits (depth + 1)) (r.array_by depth found.tree (pairs, shown pieces.now)) result }
{
    if pairs.is_empty() {
        let_go(pairs);
        return Ok(Some((found, pieces)));
    }
    if depth < found.depth {
        let_go(found);
        let_go(pairs);
        return Ok(None);
    }
    let TypeFound { tree, depth } = found;
    let Ok(of) = Boxed::new(alloc, tree) else {
        let_go(pairs);
        return Err(NoMemory);
    };
    let tree = JType::Array(of, pairs);
    Ok(Some((
        TypeFound {
            tree,
            depth: depth + 1,
        },
        pieces,
    )))
}

/// A type that is no array, with parts no deeper than `depth`.
#[cycle(types)]
#[tactic(auto, using(crate::proofs::Rules::rules), unfolding(java_expr_grammar::specs::Reading::base_step))]
fn base_step<'a>(
    alloc: Global,
    pieces: Pieces<'a>,
    depth: usize,
) -> Result<Option<(TypeFound, Pieces<'a>)>, NoMemory>
    requires { depth < usize.MAX }
    ensures { Gives type_found (TypeFits (depth + 1)) (r.base_step (r.type_read depth) (shown pieces.now)) result }
{
    match first(pieces) {
        Head::Id(name, at, rest) => {
            let (name, rest) = qualified(alloc, name, at, rest)?;
            class(alloc, name, rest, depth)
        }
        Head::Word(word, at, rest) => {
            let Some(kind) = primitive(word) else {
                return Ok(None);
            };
            let tree = JType::Primitive(kind, at);
            Ok(Some((TypeFound { tree, depth: 1 }, rest)))
        }
        _ => Ok(None),
    }
}

/// A class, behind its name.
#[cycle(types)]
#[tactic(auto, using(crate::proofs::Rules::rules))]
fn class<'a>(
    alloc: Global,
    name: JQualified,
    pieces: Pieces<'a>,
    depth: usize,
) -> Result<Option<(TypeFound, Pieces<'a>)>, NoMemory>
    requires { depth < usize.MAX }
    ensures { Gives type_found (TypeFits (depth + 1)) (r.class_by (r.type_read depth) name (shown pieces.now)) result }
{
    match first(pieces) {
        Head::Mark(Mark::Less, lp, rest) => applied(alloc, name, lp, rest, depth),
        _ => {
            let tree = JType::Class(name);
            Ok(Some((TypeFound { tree, depth: 1 }, pieces)))
        }
    }
}

#[cycle(types)]
#[tactic(auto, using(crate::proofs::Rules::rules), unfolding(java_expr_grammar::specs::Reading::applied))]
fn applied<'a>(
    alloc: Global,
    name: JQualified,
    lp: Position,
    pieces: Pieces<'a>,
    depth: usize,
) -> Result<Option<(TypeFound, Pieces<'a>)>, NoMemory>
    requires { depth < usize.MAX }
    ensures { Gives type_found (TypeFits (depth + 1)) (r.applied (r.type_read depth) name lp (shown pieces.now)) result }
{
    let (args, rest) = found_or_let_go!(some_types(alloc, pieces, depth), name);
    let Some(((is_joined, close), rest)) = closes(rest) else {
        let_go(name);
        let_go(args);
        return Ok(None);
    };
    let TypesFound {
        items,
        commas,
        deepest,
    } = args;
    let tree = JType::Applied(name, lp, items, commas, is_joined, close);
    Ok(Some((
        TypeFound {
            tree,
            depth: deepest + 1,
        },
        rest,
    )))
}

/// One or more types.
#[cycle(types)]
#[tactic(auto, using(crate::proofs::Rules::rules), unfolding(java_expr_grammar::specs::Reading::some_by))]
fn some_types<'a>(
    alloc: Global,
    pieces: Pieces<'a>,
    depth: usize,
) -> Result<Option<(TypesFound, Pieces<'a>)>, NoMemory>
    ensures { Gives types_found (TypesFit depth) (r.some_by r.comma (r.type_read depth) (shown pieces.now)) result }
{
    let Some((found, rest)) = read_type(alloc, pieces, depth)? else {
        return Ok(None);
    };
    let mut items = Items::new(alloc);
    let Ok(()) = items.push(found.tree) else {
        let_go(items);
        return Err(NoMemory);
    };
    more_types(
        alloc,
        TypesFound {
            items,
            commas: Items::new(alloc),
            deepest: found.depth,
        },
        rest,
        depth,
    )
}

#[cycle(types)]
#[tactic(auto, using(crate::proofs::Rules::rules), unfolding(java_expr_grammar::specs::Reading::more_by))]
fn more_types<'a>(
    alloc: Global,
    mut found: TypesFound,
    mut pieces: Pieces<'a>,
    depth: usize,
) -> Result<Option<(TypesFound, Pieces<'a>)>, NoMemory>
    requires { TypesFit depth (found, pieces) }
    ensures { Gives types_found (TypesFit depth) (r.more_by r.comma (r.type_read depth) (length pieces.entry.now) found.items found.commas (shown pieces.entry.now)) result }
{
    for _turn in 0..pieces.len() {
        let Some((at, rest)) = comma(pieces) else {
            return Ok(Some((found, pieces)));
        };
        let (next, rest) = found_or_let_go!(read_type(alloc, rest, depth), found);
        let Ok(()) = found.items.push(next.tree) else {
            let_go(found);
            return Err(NoMemory);
        };
        let Ok(()) = found.commas.push(at) else {
            let_go(found);
            return Err(NoMemory);
        };
        found.deepest = larger(found.deepest, next.depth);
        pieces = onward(rest);
    }
    Ok(Some((found, pieces)))
}

/// Whether it is the name of a primitive type.
pub fn is_primitive(x: &JType) -> bool
    ensures { result ≡ s.is_primitive x.now }
{
    match x {
        JType::Primitive(_, _) => true,
        _ => false,
    }
}

/// Whether it names a class.
pub fn is_class(x: &JType) -> bool
    ensures { result ≡ s.is_class x.now }
{
    match x {
        JType::Class(_) | JType::Applied(_, _, _, _, _, _) => true,
        _ => false,
    }
}
