//! The levels of heads: of each body in a head its depth, in the order of their `{`. What holds the head is at 1, and
//! each part is one deeper than what it is part of. The only error is that memory runs out.

ghost use Rattle.std.specs.Prelude.{◌≡◌, ◌++◌, IfOk, length, map};
ghost use Rattle.java_unit_grammar.specs.Levels.{all_levels, arguments_levels, constant_levels, constants_levels, declaration_levels, deeper, for_levels, levels, list_levels, lock_levels, maybe_levels, simple_levels, start_levels, switch_levels, value_levels};
ghost use Rattle.java_unit_grammar.specs.Standing.{initial_levels, member_levels, top_levels};
ghost use Rattle.java_unit_grammar.specs.Reading.{condition_levels};
ghost use Rattle.java_body_depths.specs.Parts.{raised};

use crate::walk::{push_levels, push_list};
use j2k_base::NoMemory;
use java_member_grammar::{JArguments, JConstant, JConstants, JMemberHead};
use java_statement_grammar::{
    JDeclaration, JDeclarator, JForHead, JForStart, JLock, JSimple, JSwitchLabel, JValue,
};
use java_tree::JExpr;
use std::alloc::Global;

/// The levels of the expression in the parentheses of an `if`, a loop or a switch (JLS 14.9, 14.11 to 14.13). The
/// statement is at 1 and the expression at 2.
#[tactic(auto, using(crate::proofs::Raised::heads))]
pub fn condition(alloc: Global, x: &JExpr) -> Result<Vec<usize>, NoMemory>
    ensures { IfOk result (λ v. v.items ≡ condition_levels x.now) }
{
    let mut found = Vec::new(alloc);
    let mut path = Vec::from_slice(alloc, &[0])?;
    push_levels(&mut found, &mut path, x)?;
    Ok(found)
}

/// Of expressions that are parts of what is at 1.
#[tactic(auto, using(crate::proofs::Raised::heads))]
fn part_list(alloc: Global, items: &[JExpr]) -> Result<Vec<usize>, NoMemory>
    ensures { IfOk result (λ v. v.items ≡ deeper (list_levels items.now)) }
{
    let mut found = Vec::new(alloc);
    let mut path = Vec::from_slice(alloc, &[0])?;
    push_list(&mut found, &mut path, items)?;
    Ok(found)
}

fn maybe_part(alloc: Global, x: &Option<JExpr>) -> Result<Vec<usize>, NoMemory>
    ensures { IfOk result (λ v. v.items ≡ deeper (maybe_levels x.now)) }
{
    match x {
        None => Ok(Vec::new(alloc)),
        Some(x) => condition(alloc, x),
    }
}

#[tactic(auto, using(crate::proofs::Raised::heads))]
fn push_value(
    found: &mut Vec<usize>,
    path: &mut Vec<u8>,
    value: &Option<JValue>,
) -> Result<(), NoMemory>
    ensures found { IfOk result (λ u. found.new.items ≡ found.old.items ++ raised (length path.old.items) (value_levels value.now)) }
    ensures path { IfOk result (λ u. path.new.items ≡ path.old.items) }
{
    match value {
        None => Ok(()),
        Some(value) => push_levels(found, path, &value.tree),
    }
}

#[tactic(auto, using(crate::proofs::Raised::heads))]
fn push_values(
    found: &mut Vec<usize>,
    path: &mut Vec<u8>,
    names: &[JDeclarator],
) -> Result<(), NoMemory>
    ensures { IfOk result (λ u. found.new.items ≡ found.old.items ++ raised (length path.old.items) (all_levels (map initial_levels names.entry.now))) }
{
    let mut names = names;
    while let [name, more @ ..] = names {
        push_value(found, path, &name.value)?;
        names = more;
    }
    Ok(())
}

/// Of the values of names, each as if it stood alone.
#[tactic(auto, using(crate::proofs::Raised::heads))]
fn values(alloc: Global, names: &[JDeclarator]) -> Result<Vec<usize>, NoMemory>
    ensures { IfOk result (λ v. v.items ≡ all_levels (map initial_levels names.now)) }
{
    let mut found = Vec::new(alloc);
    let mut path = Vec::new(alloc);
    push_values(&mut found, &mut path, names)?;
    Ok(found)
}

#[tactic(auto, using(crate::proofs::Raised::heads))]
fn declaration(alloc: Global, x: &JDeclaration) -> Result<Vec<usize>, NoMemory>
    ensures { IfOk result (λ v. v.items ≡ declaration_levels x.now) }
{
    let mut found = Vec::new(alloc);
    let mut path = Vec::from_slice(alloc, &[0, 0])?;
    push_values(&mut found, &mut path, x.names.as_slice())?;
    Ok(found)
}

/// The levels of what stands before the `;` of a statement (JLS 14.4 to 14.18). The statement is at 1.
pub fn simple(alloc: Global, x: &JSimple) -> Result<Vec<usize>, NoMemory>
    ensures { IfOk result (λ v. v.items ≡ simple_levels x.now) }
{
    match x {
        JSimple::Declaration(x) => declaration(alloc, x),
        JSimple::Expression(x) => condition(alloc, x),
        JSimple::Return(_, x) => maybe_part(alloc, x),
        JSimple::Throw(_, x) => condition(alloc, x),
        JSimple::ThisCall(_, _, items, _, _) => part_list(alloc, items.as_slice()),
        JSimple::SuperCall(_, _, items, _, _) => part_list(alloc, items.as_slice()),
        JSimple::Empty | JSimple::Break(..) | JSimple::Continue(..) => Ok(Vec::new(alloc)),
    }
}

fn for_start(alloc: Global, x: &JForStart) -> Result<Vec<usize>, NoMemory>
    ensures { IfOk result (λ v. v.items ≡ start_levels x.now) }
{
    match x {
        JForStart::Declaration(x) => declaration(alloc, x),
        JForStart::Expressions(items, _) => part_list(alloc, items.as_slice()),
    }
}

/// The second list behind the first.
fn join(first: Vec<usize>, second: Vec<usize>) -> Result<Vec<usize>, NoMemory>
    ensures { IfOk result (λ v. v.items ≡ first.items ++ second.items) }
{
    let mut first = first;
    let mut second = second;
    first.append(&mut second)?;
    Ok(first)
}

fn basic_for(
    alloc: Global,
    start: &JForStart,
    test: &Option<JExpr>,
    updates: &[JExpr],
) -> Result<Vec<usize>, NoMemory>
    ensures { IfOk result (λ v. v.items ≡ start_levels start.now ++ (deeper (maybe_levels test.now) ++ deeper (list_levels updates.now))) }
{
    let first = for_start(alloc, start)?;
    let rest = join(maybe_part(alloc, test)?, part_list(alloc, updates)?)?;
    join(first, rest)
}

/// The levels of what stands in the parentheses of a `for` (JLS 14.14). The loop is at 1.
pub fn for_head(alloc: Global, x: &JForHead) -> Result<Vec<usize>, NoMemory>
    ensures { IfOk result (λ v. v.items ≡ for_levels x.now) }
{
    match x {
        JForHead::Basic(start, _, test, _, updates, _) => {
            basic_for(alloc, start, test, updates.as_slice())
        }
        JForHead::Each(_, _, _, _, _, walked) => condition(alloc, walked),
    }
}

/// The levels of the lock of a synchronized statement (JLS 14.19). The statement is at 1.
pub fn lock(alloc: Global, x: &JLock) -> Result<Vec<usize>, NoMemory>
    ensures { IfOk result (λ v. v.items ≡ lock_levels x.now) }
{
    match x {
        JLock::Expression(x) => condition(alloc, x),
        JLock::Class(..) => Ok(Vec::new(alloc)),
    }
}

/// The levels of a label of a switch (JLS 14.11). The label is at 1.
pub fn label(alloc: Global, x: &JSwitchLabel) -> Result<Vec<usize>, NoMemory>
    ensures { IfOk result (λ v. v.items ≡ switch_levels x.now) }
{
    match x {
        JSwitchLabel::Case(_, x, _) => condition(alloc, x),
        JSwitchLabel::Default(..) => Ok(Vec::new(alloc)),
    }
}

/// The levels of a member of a body that stands in an expression (JLS 8.3). The member is at 1, its declarators at 2,
/// their values at 3.
pub fn member(alloc: Global, x: &JMemberHead) -> Result<Vec<usize>, NoMemory>
    ensures { IfOk result (λ v. v.items ≡ member_levels x.now) }
{
    match x {
        JMemberHead::Field(_, x) => declaration(alloc, x),
        _ => Ok(Vec::new(alloc)),
    }
}

/// The levels of a member that stands in no expression (JLS 8.3). The values of its declarators are at 1.
pub fn top(alloc: Global, x: &JMemberHead) -> Result<Vec<usize>, NoMemory>
    ensures { IfOk result (λ v. v.items ≡ top_levels x.now) }
{
    match x {
        JMemberHead::Field(_, x) => values(alloc, x.names.as_slice()),
        _ => Ok(Vec::new(alloc)),
    }
}

#[tactic(auto, using(crate::proofs::Raised::heads))]
fn push_arguments(
    found: &mut Vec<usize>,
    path: &mut Vec<u8>,
    arguments: &Option<JArguments>,
) -> Result<(), NoMemory>
    ensures found { IfOk result (λ u. found.new.items ≡ found.old.items ++ raised (length path.old.items) (arguments_levels arguments.now)) }
    ensures path { IfOk result (λ u. path.new.items ≡ path.old.items) }
{
    match arguments {
        None => Ok(()),
        Some(arguments) => push_list(found, path, arguments.items.as_slice()),
    }
}

#[tactic(auto, using(crate::proofs::Raised::heads))]
fn push_constants(
    found: &mut Vec<usize>,
    path: &mut Vec<u8>,
    items: &[JConstant],
) -> Result<(), NoMemory>
    ensures { IfOk result (λ u. found.new.items ≡ found.old.items ++ raised (length path.old.items) (all_levels (map constant_levels items.entry.now))) }
{
    let mut items = items;
    while let [item, more @ ..] = items {
        push_arguments(found, path, &item.arguments)?;
        items = more;
    }
    Ok(())
}

/// The levels of the constants of an enum (JLS 8.9.1). Their arguments are at 1.
#[tactic(auto, using(crate::proofs::Raised::heads))]
pub fn constants(alloc: Global, x: &JConstants) -> Result<Vec<usize>, NoMemory>
    ensures { IfOk result (λ v. v.items ≡ constants_levels x.now) }
{
    let mut found = Vec::new(alloc);
    let mut path = Vec::new(alloc);
    push_constants(&mut found, &mut path, x.items.as_slice())?;
    Ok(found)
}
