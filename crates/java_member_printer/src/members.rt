//! The heads of members and types.

ghost use Rattle.std.specs.Prelude.{◌≡◌, ◌++◌, [], ◌∷◌, IfOk, codes, map};
ghost use Rattle.java_tree.specs.Seen.{Token, word_seen};
ghost use Rattle.java_tree.specs.Trees.{listed, more_tokens};
ghost use Rattle.java_tree.specs.declared.tokens.Position.{Position};
ghost use Rattle.java_tree.specs.declared.tokens.Keyword.TheVariants as w;
ghost use Rattle.java_tree.specs.declared.tokens.Mark.TheVariants as m;
ghost use Rattle.java_member_grammar.specs.Heads as h;
ghost use Rattle.java_expr_printer.specs.Shown.{shown};

use j2k_base::{Name, NoMemory};
use java_expr_printer::{
    Written, closing, put, put_keyword, put_type, put_types, put_word, typed_list,
};
use java_member_grammar::{
    JBound, JFormals, JMemberHead, JModifier, JResult, JTypeHead, JTypeList, JTypeParam,
    JTypeParams, ModifierKind,
};
use java_statement_printer::put_declaration;
use java_tree::{Keyword, Mark, Position};
use std::alloc::Global;

#[tactic(auto, using(java_expr_printer::proofs::LawsToCite::joins))]
fn put_override(
    alloc: Global,
    out: &mut Vec<Written>,
    at: Position,
    name: Position,
) -> Result<(), NoMemory>
    ensures { IfOk result (λ u. shown out.new.items ≡ shown out.old.items ++ Token.Sign m.At at ∷ Token.Id (codes "Override") name ∷ []) }
{
    put(out, Mark::At, at)?;
    let text = Name::from_str(alloc, "Override")?;
    put_word(alloc, out, &text, name)
}

#[tactic(auto, using(java_expr_printer::proofs::LawsToCite::joins))]
fn put_modifier(alloc: Global, out: &mut Vec<Written>, x: JModifier) -> Result<(), NoMemory>
    ensures { IfOk result (λ u. shown out.new.items ≡ shown out.old.items ++ h.modifier_tokens x) }
{
    let word = match x.kind {
        ModifierKind::Override(name) => return put_override(alloc, out, x.at, name),
        ModifierKind::Public => Keyword::Public,
        ModifierKind::Protected => Keyword::Protected,
        ModifierKind::Private => Keyword::Private,
        ModifierKind::Abstract => Keyword::Abstract,
        ModifierKind::Static => Keyword::Static,
        ModifierKind::Final => Keyword::Final,
        ModifierKind::Synchronized => Keyword::Synchronized,
        ModifierKind::Volatile => Keyword::Volatile,
        ModifierKind::Default => Keyword::Default,
    };
    put_keyword(out, word, x.at)
}

#[tactic(auto, using(java_expr_printer::proofs::LawsToCite::joins))]
fn put_modifiers(alloc: Global, out: &mut Vec<Written>, items: &[JModifier]) -> Result<(), NoMemory>
    ensures { IfOk result (λ u. shown out.new.items ≡ shown out.old.items ++ h.modifiers_tokens items.entry.now) }
{
    let mut items = items;
    while let [item, more @ ..] = items {
        put_modifier(alloc, out, *item)?;
        items = more;
    }
    Ok(())
}

#[tactic(auto, using(java_expr_printer::proofs::LawsToCite::joins))]
fn put_bound(alloc: Global, out: &mut Vec<Written>, x: &Option<JBound>) -> Result<(), NoMemory>
    ensures { IfOk result (λ u. shown out.new.items ≡ shown out.old.items ++ h.bound_tokens x.now) }
{
    match x {
        None => Ok(()),
        Some(bound) => {
            put_keyword(out, Keyword::Extends, bound.at)?;
            put_type(alloc, out, &bound.kind)
        }
    }
}

#[tactic(auto, using(java_expr_printer::proofs::LawsToCite::joins))]
fn put_type_param(alloc: Global, out: &mut Vec<Written>, x: &JTypeParam) -> Result<(), NoMemory>
    ensures { IfOk result (λ u. shown out.new.items ≡ shown out.old.items ++ h.type_param_tokens x.now) }
{
    put_word(alloc, out, &x.name, x.at)?;
    put_bound(alloc, out, &x.bound)
}

#[tactic(auto, using(java_expr_printer::proofs::LawsToCite::joins))]
fn other_type_params(
    alloc: Global,
    out: &mut Vec<Written>,
    items: &[JTypeParam],
    commas: &[Position],
) -> Result<(), NoMemory>
    ensures { IfOk result (λ u. shown out.new.items ≡ shown out.old.items ++ more_tokens commas.entry.now (map h.type_param_tokens items.entry.now)) }
{
    let mut items = items;
    let mut commas = commas;
    while let [at, rest @ ..] = commas {
        let [item, more @ ..] = items else {
            return Ok(());
        };
        put(out, Mark::Comma, *at)?;
        put_type_param(alloc, out, item)?;
        items = more;
        commas = rest;
    }
    Ok(())
}

/// Type parameters with commas between them.
#[tactic(auto, using(java_expr_printer::proofs::LawsToCite::joins))]
fn put_type_params(
    alloc: Global,
    out: &mut Vec<Written>,
    items: &[JTypeParam],
    commas: &[Position],
) -> Result<(), NoMemory>
    ensures { IfOk result (λ u. shown out.new.items ≡ shown out.old.items ++ listed commas.now (map h.type_param_tokens items.now)) }
{
    let [first, more @ ..] = items else {
        return Ok(());
    };
    put_type_param(alloc, out, first)?;
    other_type_params(alloc, out, more, commas)
}

/// Type parameters with `<` and `>`, where they stand.
#[tactic(auto, using(java_expr_printer::proofs::LawsToCite::joins))]
fn put_angled(
    alloc: Global,
    out: &mut Vec<Written>,
    x: &Option<JTypeParams>,
) -> Result<(), NoMemory>
    ensures { IfOk result (λ u. shown out.new.items ≡ shown out.old.items ++ h.type_params_tokens x.now) }
{
    match x {
        None => Ok(()),
        Some(params) => {
            put(out, Mark::Less, params.opens)?;
            put_type_params(
                alloc,
                out,
                params.items.as_slice(),
                params.commas.as_slice(),
            )?;
            put(out, closing(params.is_joined), params.closes)
        }
    }
}

#[tactic(auto, using(java_expr_printer::proofs::LawsToCite::joins))]
fn put_formals(alloc: Global, out: &mut Vec<Written>, x: &JFormals) -> Result<(), NoMemory>
    ensures { IfOk result (λ u. shown out.new.items ≡ shown out.old.items ++ h.formals_tokens x.now) }
{
    put(out, Mark::OpenRound, x.opens)?;
    typed_list(alloc, out, x.items.as_slice(), x.commas.as_slice())?;
    put(out, Mark::CloseRound, x.closes)
}

/// A word with types behind it, where they stand.
#[tactic(auto, using(java_expr_printer::proofs::LawsToCite::joins))]
fn put_type_list(
    alloc: Global,
    out: &mut Vec<Written>,
    word: Keyword,
    x: &Option<JTypeList>,
) -> Result<(), NoMemory>
    requires { (at : Position) → word_seen word at ≡ Token.Word word at }
    ensures { IfOk result (λ u. shown out.new.items ≡ shown out.old.items ++ h.list_tokens word x.now) }
{
    match x {
        None => Ok(()),
        Some(list) => {
            put_keyword(out, word, list.at)?;
            put_types(alloc, out, list.items.as_slice(), list.commas.as_slice())
        }
    }
}

#[tactic(auto, using(java_expr_printer::proofs::LawsToCite::joins))]
fn put_result(alloc: Global, out: &mut Vec<Written>, x: &JResult) -> Result<(), NoMemory>
    ensures { IfOk result (λ u. shown out.new.items ≡ shown out.old.items ++ h.result_tokens x.now) }
{
    match x {
        JResult::Void(at) => put_keyword(out, Keyword::Void, *at),
        JResult::Type(kind) => put_type(alloc, out, kind),
    }
}

#[tactic(auto, using(java_expr_printer::proofs::LawsToCite::joins))]
fn put_static(out: &mut Vec<Written>, x: Option<Position>) -> Result<(), NoMemory>
    ensures { IfOk result (λ u. shown out.new.items ≡ shown out.old.items ++ h.static_tokens x) }
{
    match x {
        None => Ok(()),
        Some(at) => put_keyword(out, Keyword::Static, at),
    }
}

/// The name of a method or a constructor, and what stands behind it.
#[tactic(auto, using(java_expr_printer::proofs::LawsToCite::joins))]
fn put_callable(
    alloc: Global,
    out: &mut Vec<Written>,
    name: &Name,
    at: Position,
    formals: &JFormals,
    throws: &Option<JTypeList>,
) -> Result<(), NoMemory>
    ensures { IfOk result (λ u. shown out.new.items ≡ shown out.old.items ++ Token.Id name.now at ∷ (h.formals_tokens formals.now ++ h.list_tokens w.Throws throws.now)) }
{
    put_word(alloc, out, name, at)?;
    put_formals(alloc, out, formals)?;
    put_type_list(alloc, out, Keyword::Throws, throws)
}

/// What stands of a member before its `;` or its block (JLS 8.1.6, 9.1.4).
#[tactic(auto, using(java_expr_printer::proofs::LawsToCite::joins))]
pub fn put_member(alloc: Global, out: &mut Vec<Written>, x: &JMemberHead) -> Result<(), NoMemory>
    ensures { IfOk result (λ u. shown out.new.items ≡ shown out.old.items ++ h.member_tokens x.now) }
{
    match x {
        JMemberHead::Empty => Ok(()),
        JMemberHead::Field(mods, declaration) => {
            put_modifiers(alloc, out, mods.as_slice())?;
            put_declaration(alloc, out, declaration)
        }
        JMemberHead::Method(mods, params, kind, name, at, formals, throws) => {
            put_modifiers(alloc, out, mods.as_slice())?;
            put_angled(alloc, out, params)?;
            put_result(alloc, out, kind)?;
            put_callable(alloc, out, name, *at, formals, throws)
        }
        JMemberHead::Constructor(mods, name, at, formals, throws) => {
            put_modifiers(alloc, out, mods.as_slice())?;
            put_callable(alloc, out, name, *at, formals, throws)
        }
        JMemberHead::Initializer(at) => put_static(out, *at),
    }
}

/// The modifiers, the word and the name of a type.
#[tactic(auto, using(java_expr_printer::proofs::LawsToCite::joins))]
fn put_named(
    alloc: Global,
    out: &mut Vec<Written>,
    mods: &[JModifier],
    word: Keyword,
    at: Position,
    name: &Name,
    name_at: Position,
) -> Result<(), NoMemory>
    requires { (at : Position) → word_seen word at ≡ Token.Word word at }
    ensures { IfOk result (λ u. shown out.new.items ≡ shown out.old.items ++ (h.modifiers_tokens mods.now ++ Token.Word word at ∷ Token.Id name.now name_at ∷ [])) }
{
    put_modifiers(alloc, out, mods)?;
    put_keyword(out, word, at)?;
    put_word(alloc, out, name, name_at)
}

/// What stands of a type before its body (JLS 8.1, 8.9, 9.1).
#[tactic(auto, using(java_expr_printer::proofs::LawsToCite::joins))]
pub fn put_type_head(alloc: Global, out: &mut Vec<Written>, x: &JTypeHead) -> Result<(), NoMemory>
    ensures { IfOk result (λ u. shown out.new.items ≡ shown out.old.items ++ h.type_head_tokens x.now) }
{
    match x {
        JTypeHead::Class(mods, at, name, name_at, params, above, faces) => {
            put_named(
                alloc,
                out,
                mods.as_slice(),
                Keyword::Class,
                *at,
                name,
                *name_at,
            )?;
            put_angled(alloc, out, params)?;
            put_bound(alloc, out, above)?;
            put_type_list(alloc, out, Keyword::Implements, faces)
        }
        JTypeHead::Interface(mods, at, name, name_at, params, above) => {
            put_named(
                alloc,
                out,
                mods.as_slice(),
                Keyword::Interface,
                *at,
                name,
                *name_at,
            )?;
            put_angled(alloc, out, params)?;
            put_type_list(alloc, out, Keyword::Extends, above)
        }
        JTypeHead::Enum(mods, at, name, name_at, faces) => {
            put_named(
                alloc,
                out,
                mods.as_slice(),
                Keyword::Enum,
                *at,
                name,
                *name_at,
            )?;
            put_type_list(alloc, out, Keyword::Implements, faces)
        }
    }
}
