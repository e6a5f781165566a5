// The heads of statements, with what their bodies say put in.
ghost use Rattle.std.specs.Prelude.{◌≡◌, ◌++◌, ◌∷◌, [], IfOk};
ghost use Rattle.java_body_uses.specs.Bodies as s;
ghost use Rattle.java_body_uses.specs.Filling as f;
ghost use Rattle.java_name_uses.specs.Heads as h;
ghost use Rattle.java_name_uses.specs.Uses as n;

use j2k_base::{Name, NoMemory};
use java_name_uses::{Sign, Use, Uses, expression, for_head, label, lock, simple};
use java_statement_grammar::{JForHead, JLock, JSimple, JSwitchLabel};
use java_tree::JExpr;
use sqlite_items::Items;
use std::alloc::Global;

pub(crate) fn simple_uses(alloc: Global, x: &JSimple) -> Result<Uses, NoMemory>
    ensures { IfOk result (λ uses. uses ≡ h.simple x.now) }
{
    let mut head = Items::new(alloc);
    simple(alloc, &mut head, x)?;
    Ok(head)
}

pub(crate) fn value_uses(alloc: Global, x: &JExpr) -> Result<Uses, NoMemory>
    ensures { IfOk result (λ uses. uses ≡ n.value (n.uses x.now)) }
{
    let mut head = Items::new(alloc);
    expression(alloc, &mut head, x)?;
    Ok(head)
}

pub(crate) fn for_uses(alloc: Global, x: &JForHead) -> Result<Uses, NoMemory>
    ensures { IfOk result (λ uses. uses ≡ h.for_head x.now) }
{
    let mut head = Items::new(alloc);
    for_head(alloc, &mut head, x)?;
    Ok(head)
}

pub(crate) fn lock_uses(alloc: Global, x: &JLock) -> Result<Uses, NoMemory>
    ensures { IfOk result (λ uses. uses ≡ h.lock x.now) }
{
    let mut head = Items::new(alloc);
    lock(alloc, &mut head, x)?;
    Ok(head)
}

pub(crate) fn label_uses(alloc: Global, x: &JSwitchLabel) -> Result<Uses, NoMemory>
    ensures { IfOk result (λ uses. uses ≡ h.label x.now) }
{
    let mut head = Items::new(alloc);
    label(alloc, &mut head, x)?;
    Ok(head)
}

/// The block of a lambda.
pub(crate) fn is_block(x: &Use) -> bool
    ensures { result ≡ s.is_block x.now }
{
    matches!(x, Use::Sign(Sign::Block))
}

/// The place of a body: the block of a lambda, or an anonymous class.
pub(crate) fn is_place(x: &Use) -> bool
    ensures { result ≡ s.is_place x.now }
{
    matches!(x, Use::Sign(Sign::Block | Sign::Skipped))
}

/// The same once more.
pub(crate) fn put_again(alloc: Global, out: &mut Uses, x: &Use) -> Result<(), NoMemory>
    ensures { IfOk result (λ u. out.new ≡ out.old ++ x.now ∷ []) }
{
    let copy = match x {
        Use::Sign(x) => Use::Sign(*x),
        Use::Word(x, at) => Use::Word(*x, *at),
        Use::Name(x, name, at) => Use::Name(*x, Name::from_str(alloc, name.as_str())?, *at),
    };
    out.push(copy)?;
    Ok(())
}

/// What is left of a head, which has no bodies any more.
pub(crate) fn put_all_again(alloc: Global, out: &mut Uses, xs: &[Use]) -> Result<(), NoMemory>
    ensures { IfOk result (λ u. out.new ≡ out.old ++ xs.now) }
{
    for x in xs {
        put_again(alloc, out, x)?;
    }
    Ok(())
}

/// What a head says before its first place; answers what stands from there on.
pub(crate) fn put_before<'a>(
    alloc: Global,
    out: &mut Uses,
    head: &'a [Use],
) -> Result<&'a [Use], NoMemory>
    ensures said { IfOk result (λ more. out.new ≡ out.old ++ f.before head.now) }
    ensures left { IfOk result (λ more. more.now ≡ f.from_place head.now) }
{
    for (i, x) in head.iter().enumerate() {
        if is_place(x) {
            return Ok(&head[i..]);
        }
        put_again(alloc, out, x)?;
    }
    Ok(&[])
}
