//! The tokens of heads, as lists of their own.

ghost use Rattle.std.specs.Prelude.{◌≡◌, IfOk};
ghost use Rattle.java_tree.specs.Trees.{tokens, typed_tokens};
ghost use Rattle.java_statement_grammar.specs.Heads.{for_tokens, lock_tokens, simple_tokens, switch_tokens};
ghost use Rattle.java_member_grammar.specs.Heads.{constants_tokens, member_tokens, type_head_tokens};
ghost use Rattle.java_expr_printer.specs.Shown.{shown};

use j2k_base::NoMemory;
use java_expr_printer::{Written, put_expr, put_typed};
use java_member_grammar::{JConstants, JMemberHead, JTypeHead};
use java_member_printer::{put_constants, put_member, put_type_head};
use java_statement_grammar::{JForHead, JLock, JSimple, JSwitchLabel};
use java_statement_printer::{put_for, put_lock, put_simple, put_switch};
use java_tree::{JExpr, JTypedParam};
use std::alloc::Global;

#[tactic(auto, using(java_expr_printer::proofs::LawsToCite::joins))]
pub fn expression_text(alloc: Global, x: &JExpr) -> Result<Vec<Written>, NoMemory>
    ensures { IfOk result (λ text. shown text.items ≡ tokens x.now) }
{
    let mut text = Vec::new(alloc);
    put_expr(alloc, &mut text, x)?;
    Ok(text)
}

#[tactic(auto, using(java_expr_printer::proofs::LawsToCite::joins))]
pub fn typed_text(alloc: Global, x: &JTypedParam) -> Result<Vec<Written>, NoMemory>
    ensures { IfOk result (λ text. shown text.items ≡ typed_tokens x.now) }
{
    let mut text = Vec::new(alloc);
    put_typed(alloc, &mut text, x)?;
    Ok(text)
}

#[tactic(auto, using(java_expr_printer::proofs::LawsToCite::joins))]
pub fn simple_text(alloc: Global, x: &JSimple) -> Result<Vec<Written>, NoMemory>
    ensures { IfOk result (λ text. shown text.items ≡ simple_tokens x.now) }
{
    let mut text = Vec::new(alloc);
    put_simple(alloc, &mut text, x)?;
    Ok(text)
}

#[tactic(auto, using(java_expr_printer::proofs::LawsToCite::joins))]
pub fn for_text(alloc: Global, x: &JForHead) -> Result<Vec<Written>, NoMemory>
    ensures { IfOk result (λ text. shown text.items ≡ for_tokens x.now) }
{
    let mut text = Vec::new(alloc);
    put_for(alloc, &mut text, x)?;
    Ok(text)
}

#[tactic(auto, using(java_expr_printer::proofs::LawsToCite::joins))]
pub fn lock_text(alloc: Global, x: &JLock) -> Result<Vec<Written>, NoMemory>
    ensures { IfOk result (λ text. shown text.items ≡ lock_tokens x.now) }
{
    let mut text = Vec::new(alloc);
    put_lock(alloc, &mut text, x)?;
    Ok(text)
}

#[tactic(auto, using(java_expr_printer::proofs::LawsToCite::joins))]
pub fn switch_text(alloc: Global, x: &JSwitchLabel) -> Result<Vec<Written>, NoMemory>
    ensures { IfOk result (λ text. shown text.items ≡ switch_tokens x.now) }
{
    let mut text = Vec::new(alloc);
    put_switch(alloc, &mut text, x)?;
    Ok(text)
}

#[tactic(auto, using(java_expr_printer::proofs::LawsToCite::joins))]
pub fn member_text(alloc: Global, x: &JMemberHead) -> Result<Vec<Written>, NoMemory>
    ensures { IfOk result (λ text. shown text.items ≡ member_tokens x.now) }
{
    let mut text = Vec::new(alloc);
    put_member(alloc, &mut text, x)?;
    Ok(text)
}

#[tactic(auto, using(java_expr_printer::proofs::LawsToCite::joins))]
pub fn type_text(alloc: Global, x: &JTypeHead) -> Result<Vec<Written>, NoMemory>
    ensures { IfOk result (λ text. shown text.items ≡ type_head_tokens x.now) }
{
    let mut text = Vec::new(alloc);
    put_type_head(alloc, &mut text, x)?;
    Ok(text)
}

#[tactic(auto, using(java_expr_printer::proofs::LawsToCite::joins))]
pub fn constants_text(alloc: Global, x: &JConstants) -> Result<Vec<Written>, NoMemory>
    ensures { IfOk result (λ text. shown text.items ≡ constants_tokens x.now) }
{
    let mut text = Vec::new(alloc);
    put_constants(alloc, &mut text, x)?;
    Ok(text)
}
