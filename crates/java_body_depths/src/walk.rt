//! The levels of an expression.
//!
//! The path has an entry for each form on the way. Its length is a `usize` however deep the tree is, so that a level
//! always is one.

ghost use Rattle.std.specs.Prelude.{◌≡◌, ◌+◌, ◌++◌, [], ◌∷◌, IfOk, length, vec_len};
ghost use Rattle.java_unit_grammar.specs.Levels.{levels, list_levels};
ghost use Rattle.java_body_depths.specs.Parts.{raised, parts, own};

use j2k_base::NoMemory;
use java_tree::JExpr;

/// The body that the form itself has.
#[tactic(auto, using(crate::proofs::Raised::steps))]
fn push_own(found: &mut Vec<usize>, path: &Vec<u8>, x: &JExpr) -> Result<(), NoMemory>
    ensures { IfOk result (λ u. found.new.items ≡ found.old.items ++ raised (length path.now.items) (own x.now)) }
{
    match x {
        JExpr::LambdaBlock(..) | JExpr::New(.., Some(_)) => found.push(2 + path.len())?,
        _ => (),
    }
    Ok(())
}

/// The bodies of an expression, which has as many forms around it as the path has entries.
#[cycle(levels)]
#[tactic(auto, using(crate::proofs::Raised::steps))]
pub(crate) fn push_levels(
    found: &mut Vec<usize>,
    path: &mut Vec<u8>,
    x: &JExpr,
) -> Result<(), NoMemory>
    ensures found { IfOk result (λ u. found.new.items ≡ found.old.items ++ raised (length path.old.items) (levels x.now)) }
    ensures path { IfOk result (λ u. path.new.items ≡ path.old.items) }
{
    path.push(0)?;
    push_parts(found, path, x)?;
    path.pop();
    push_own(found, path, x)
}

#[cycle(levels)]
#[tactic(auto, using(crate::proofs::Raised::steps))]
fn push_two(
    found: &mut Vec<usize>,
    path: &mut Vec<u8>,
    left: &JExpr,
    right: &JExpr,
) -> Result<(), NoMemory>
    ensures found { IfOk result (λ u. found.new.items ≡ found.old.items ++ raised (length path.old.items) (levels left.now ++ levels right.now)) }
    ensures path { IfOk result (λ u. path.new.items ≡ path.old.items) }
{
    push_levels(found, path, left)?;
    push_levels(found, path, right)
}

#[cycle(levels)]
#[tactic(auto, using(crate::proofs::Raised::steps))]
fn push_three(
    found: &mut Vec<usize>,
    path: &mut Vec<u8>,
    left: &JExpr,
    middle: &JExpr,
    right: &JExpr,
) -> Result<(), NoMemory>
    ensures found { IfOk result (λ u. found.new.items ≡ found.old.items ++ raised (length path.old.items) (levels left.now ++ (levels middle.now ++ levels right.now))) }
    ensures path { IfOk result (λ u. path.new.items ≡ path.old.items) }
{
    push_levels(found, path, left)?;
    push_two(found, path, middle, right)
}

#[cycle(levels)]
#[tactic(auto, using(crate::proofs::Raised::steps))]
fn push_call(
    found: &mut Vec<usize>,
    path: &mut Vec<u8>,
    left: &JExpr,
    items: &[JExpr],
) -> Result<(), NoMemory>
    ensures found { IfOk result (λ u. found.new.items ≡ found.old.items ++ raised (length path.old.items) (levels left.now ++ list_levels items.now)) }
    ensures path { IfOk result (λ u. path.new.items ≡ path.old.items) }
{
    push_levels(found, path, left)?;
    push_list(found, path, items)
}

#[cycle(levels)]
#[tactic(auto, using(crate::proofs::Raised::steps))]
pub(crate) fn push_list(
    found: &mut Vec<usize>,
    path: &mut Vec<u8>,
    items: &[JExpr],
) -> Result<(), NoMemory>
    ensures found { IfOk result (λ u. found.new.items ≡ found.old.items ++ raised (length path.old.items) (list_levels items.entry.now)) }
    ensures path { IfOk result (λ u. path.new.items ≡ path.old.items) }
{
    let mut items = items;
    while let [item, more @ ..] = items {
        push_levels(found, path, item)?;
        items = more;
    }
    Ok(())
}

/// The bodies of the parts of an expression, each of which has as many forms around it as the path has entries.
#[cycle(levels)]
#[tactic(auto, using(crate::proofs::Raised::steps))]
fn push_parts(found: &mut Vec<usize>, path: &mut Vec<u8>, x: &JExpr) -> Result<(), NoMemory>
    ensures found { IfOk result (λ u. found.new.items ≡ found.old.items ++ raised (length path.old.items) (parts x.now)) }
    ensures path { IfOk result (λ u. path.new.items ≡ path.old.items) }
{
    match x {
        JExpr::Name(..)
        | JExpr::Literal(..)
        | JExpr::This(..)
        | JExpr::MinusLeast(..)
        | JExpr::LambdaBlock(..) => Ok(()),
        JExpr::Paren(_, inner, _) => push_levels(found, path, inner.get()),
        JExpr::Prefix(_, _, inner) => push_levels(found, path, inner.get()),
        JExpr::Cast(_, _, _, inner) => push_levels(found, path, inner.get()),
        JExpr::Field(left, ..) => push_levels(found, path, left.get()),
        JExpr::Postfix(left, ..) => push_levels(found, path, left.get()),
        JExpr::Instanceof(left, ..) => push_levels(found, path, left.get()),
        JExpr::Lambda(_, _, body) => push_levels(found, path, body.get()),
        JExpr::NewArray(_, _, _, size, ..) => push_levels(found, path, size.get()),
        JExpr::Element(left, _, index, _) => push_two(found, path, left.get(), index.get()),
        JExpr::Binary(left, _, _, right) => push_two(found, path, left.get(), right.get()),
        JExpr::Assign(left, _, _, right) => push_two(found, path, left.get(), right.get()),
        JExpr::Conditional(left, _, middle, _, last) => {
            push_three(found, path, left.get(), middle.get(), last.get())
        }
        JExpr::Method(left, _, _, _, _, items, ..) => {
            push_call(found, path, left.get(), items.as_slice())
        }
        JExpr::Call(_, _, _, items, ..) => push_list(found, path, items.as_slice()),
        JExpr::SuperCall(_, _, _, _, _, items, ..) => push_list(found, path, items.as_slice()),
        JExpr::New(_, _, _, items, ..) => push_list(found, path, items.as_slice()),
        JExpr::NewFilled(_, _, _, _, items, ..) => push_list(found, path, items.as_slice()),
        JExpr::Braces(_, items, ..) => push_list(found, path, items.as_slice()),
    }
}
