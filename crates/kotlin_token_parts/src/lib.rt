//! What a Kotlin token says where the grammar takes it, the type with a `?`, and which expressions are names or may be assigned to.
#![tactic(auto)]

ghost use Rattle.std.specs.Prelude.{◌≡◌, ◌++◌, ◌∷◌, [], IfOk, Some, None, true, false};
ghost use Rattle.kotlin_grammar.specs.Meaning.{
  literal_of as literal_of_of,
  literal_word as literal_word_of,
  prefix_of as prefix_of_of,
  prefix_mark as prefix_mark_of,
  postfix_of as postfix_of_of,
  postfix_mark as postfix_mark_of,
  binary_of as binary_of_of,
  binary_mark as binary_mark_of,
  binary_word as binary_word_of,
  variability_of as variability_of_of,
  variability_word as variability_word_of,
  called_of as called_of_of,
  called_word as called_word_of,
  modifier_of as modifier_of_of,
  modifier_word as modifier_word_of,
  annotation_of as annotation_of_of,
  annotation_word as annotation_word_of,
  class_word_of as class_word_of_of,
  class_keyword as class_keyword_of,
  fun_class_word_of as fun_class_word_of_of,
  fun_class_keyword as fun_class_keyword_of,
  asked as asked_of,
  chain as chain_of,
  is_target as is_target_of,
};

use j2k_base::{Name, NoMemory};
use kotlin_tree::{
    KBinary, KCalled, KClassWord, KDotted, KExpr, KLiteral, KModifierKind, KName, KPostfix,
    KPrefix, KQualified, KToken, KType, KVariability, Keyword, Mark, Position, TokenKind, Word,
};
use sqlite_items::Items;
use std::alloc::Global;

fn literal_word(word: Keyword) -> Option<KLiteral>
    ensures { result ≡ literal_word_of word }
{
    match word {
        Keyword::True => Some(KLiteral::True),
        Keyword::False => Some(KLiteral::False),
        Keyword::Null => Some(KLiteral::Null),
        _ => None,
    }
}

pub fn literal_of(token: KToken) -> Option<KLiteral>
    ensures { result ≡ literal_of_of token.kind }
{
    match token.kind {
        TokenKind::Integer(number) => Some(KLiteral::Integer(number)),
        TokenKind::Long(number) => Some(KLiteral::Long(number)),
        TokenKind::Character(unit) => Some(KLiteral::Character(unit)),
        TokenKind::Text(units) => Some(KLiteral::Text(units)),
        TokenKind::Keyword(word) => literal_word(word),
        _ => None,
    }
}

fn prefix_mark(mark: Mark) -> Option<KPrefix>
    ensures { result ≡ prefix_mark_of mark }
{
    match mark {
        Mark::Plus => Some(KPrefix::Plus),
        Mark::Minus => Some(KPrefix::Minus),
        Mark::Not => Some(KPrefix::Not),
        Mark::PlusPlus => Some(KPrefix::Increment),
        Mark::MinusMinus => Some(KPrefix::Decrement),
        _ => None,
    }
}

pub fn prefix_of(token: KToken) -> Option<KPrefix>
    ensures { result ≡ prefix_of_of token.kind }
{
    match token.kind {
        TokenKind::Mark(mark) => prefix_mark(mark),
        _ => None,
    }
}

fn postfix_mark(mark: Mark) -> Option<KPostfix>
    ensures { result ≡ postfix_mark_of mark }
{
    match mark {
        Mark::NotNull => Some(KPostfix::NotNull),
        Mark::PlusPlus => Some(KPostfix::Increment),
        Mark::MinusMinus => Some(KPostfix::Decrement),
        _ => None,
    }
}

pub fn postfix_of(token: KToken) -> Option<KPostfix>
    ensures { result ≡ postfix_of_of token.kind }
{
    match token.kind {
        TokenKind::Mark(mark) => postfix_mark(mark),
        _ => None,
    }
}

fn binary_mark(mark: Mark) -> Option<KBinary>
    ensures { result ≡ binary_mark_of mark }
{
    match mark {
        Mark::OrOr => Some(KBinary::OrElse),
        Mark::AndAnd => Some(KBinary::AndAlso),
        Mark::Equal => Some(KBinary::Equal),
        Mark::NotEqual => Some(KBinary::NotEqual),
        Mark::Identical => Some(KBinary::Same),
        Mark::NotIdentical => Some(KBinary::NotSame),
        Mark::Less => Some(KBinary::Less),
        Mark::Greater => Some(KBinary::Greater),
        Mark::LessEqual => Some(KBinary::LessEqual),
        Mark::GreaterEqual => Some(KBinary::GreaterEqual),
        Mark::Plus => Some(KBinary::Add),
        Mark::Minus => Some(KBinary::Subtract),
        Mark::Star => Some(KBinary::Multiply),
        Mark::Slash => Some(KBinary::Divide),
        Mark::Percent => Some(KBinary::Remainder),
        _ => None,
    }
}

fn binary_word(word: Word) -> Option<KBinary>
    ensures { result ≡ binary_word_of word }
{
    match word {
        Word::Shl => Some(KBinary::ShiftLeft),
        Word::Shr => Some(KBinary::ShiftRight),
        Word::Ushr => Some(KBinary::ShiftUnsigned),
        Word::And => Some(KBinary::BitAnd),
        Word::Or => Some(KBinary::BitOr),
        Word::Xor => Some(KBinary::BitXor),
        _ => None,
    }
}

pub fn binary_of(token: KToken) -> Option<KBinary>
    ensures { result ≡ binary_of_of token.kind }
{
    match token.kind {
        TokenKind::Mark(mark) => binary_mark(mark),
        TokenKind::Word(word) => binary_word(word),
        _ => None,
    }
}

fn variability_word(word: Keyword) -> Option<KVariability>
    ensures { result ≡ variability_word_of word }
{
    match word {
        Keyword::Val => Some(KVariability::Val),
        Keyword::Var => Some(KVariability::Var),
        _ => None,
    }
}

pub fn variability_of(token: KToken) -> Option<KVariability>
    ensures { result ≡ variability_of_of token.kind }
{
    match token.kind {
        TokenKind::Keyword(word) => variability_word(word),
        _ => None,
    }
}

fn called_word(word: Keyword) -> Option<KCalled>
    ensures { result ≡ called_word_of word }
{
    match word {
        Keyword::This => Some(KCalled::This),
        Keyword::Super => Some(KCalled::Super),
        _ => None,
    }
}

pub fn called_of(token: KToken) -> Option<KCalled>
    ensures { result ≡ called_of_of token.kind }
{
    match token.kind {
        TokenKind::Keyword(word) => called_word(word),
        _ => None,
    }
}

fn modifier_word(word: Word) -> Option<KModifierKind>
    ensures { result ≡ modifier_word_of word }
{
    match word {
        Word::Private => Some(KModifierKind::Private),
        Word::Abstract => Some(KModifierKind::Abstract),
        Word::Open => Some(KModifierKind::Open),
        Word::Override => Some(KModifierKind::Override),
        Word::Const => Some(KModifierKind::Const),
        _ => None,
    }
}

pub fn modifier_of(token: KToken) -> Option<KModifierKind>
    ensures { result ≡ modifier_of_of token.kind }
{
    match token.kind {
        TokenKind::Word(word) => modifier_word(word),
        _ => None,
    }
}

fn annotation_word(at: Position, word: Word) -> Option<KModifierKind>
    ensures { result ≡ annotation_word_of at word }
{
    match word {
        Word::JvmStatic => Some(KModifierKind::JvmStatic(at)),
        Word::JvmField => Some(KModifierKind::JvmField(at)),
        Word::SynchronizedMethod => Some(KModifierKind::Synchronized(at)),
        Word::Volatile => Some(KModifierKind::Volatile(at)),
        _ => None,
    }
}

pub fn annotation_of(token: KToken) -> Option<KModifierKind>
    ensures { result ≡ annotation_of_of token }
{
    match token.kind {
        TokenKind::Word(word) => annotation_word(token.position, word),
        _ => None,
    }
}

fn class_keyword(word: Keyword) -> Option<KClassWord>
    ensures { result ≡ class_keyword_of word }
{
    match word {
        Keyword::Class => Some(KClassWord::Class),
        Keyword::Interface => Some(KClassWord::Interface),
        _ => None,
    }
}

pub fn class_word_of(token: KToken) -> Option<KClassWord>
    ensures { result ≡ class_word_of_of token.kind }
{
    match token.kind {
        TokenKind::Keyword(word) => class_keyword(word),
        _ => None,
    }
}

fn fun_class_keyword(at: Position, word: Keyword) -> Option<KClassWord>
    ensures { result ≡ fun_class_keyword_of at word }
{
    match word {
        Keyword::Class => Some(KClassWord::FunClass(at)),
        Keyword::Interface => Some(KClassWord::FunInterface(at)),
        _ => None,
    }
}

pub fn fun_class_word_of(at: Position, token: KToken) -> Option<KClassWord>
    ensures { result ≡ fun_class_word_of_of at token.kind }
{
    match token.kind {
        TokenKind::Keyword(word) => fun_class_keyword(at, word),
        _ => None,
    }
}

/// The type with `?`.
#[tactic(auto, unfolding(kotlin_grammar::specs::Meaning::asked))]
pub fn asked(at: Position, kind: KType) -> KType
    ensures { result ≡ asked_of at kind }
{
    match kind {
        KType::Plain { name, variable, .. } => KType::Plain {
            name,
            question: Some(at),
            variable,
        },
        KType::Applied {
            name,
            angles,
            arguments,
            commas,
            ..
        } => KType::Applied {
            name,
            angles,
            arguments,
            commas,
            question: Some(at),
        },
    }
}

fn copied(alloc: Global, name: &KName) -> Result<KName, NoMemory>
    ensures { IfOk result (λ copy. copy ≡ name.now) }
{
    let text = Name::from_str(alloc, name.name.as_str())?;
    Ok(KName {
        name: text,
        at: name.at,
    })
}

fn first_of(alloc: Global, name: &KName) -> Result<KQualified, NoMemory>
    ensures { IfOk result (λ made. made ≡ record { first = name.now; rest = [] }) }
{
    let first = copied(alloc, name)?;
    Ok(KQualified {
        first,
        rest: Items::new(alloc),
    })
}

fn dotted(
    alloc: Global,
    left: KQualified,
    dot: Position,
    name: &KName,
) -> Result<KQualified, NoMemory>
    ensures { IfOk result (λ made. made ≡ record { first = left.first; rest = left.rest ++ record { dot = dot; name = name.now } ∷ [] }) }
{
    let name = copied(alloc, name)?;
    let mut left = left;
    left.rest.push(KDotted { dot, name })?;
    Ok(left)
}

/// The name that an expression is, where it is names with dots alone.
#[tactic(auto, unfolding(kotlin_grammar::specs::Meaning::chain))]
pub fn chain(alloc: Global, tree: &KExpr) -> Result<Option<KQualified>, NoMemory>
    ensures { IfOk result (λ made. made ≡ chain_of tree.now) }
{
    match tree {
        KExpr::Name(name) => Ok(Some(first_of(alloc, name)?)),
        KExpr::Field(left, dot, name) => match chain(alloc, left.get())? {
            Some(left) => Ok(Some(dotted(alloc, left, *dot, name)?)),
            None => Ok(None),
        },
        _ => Ok(None),
    }
}

/// Whether it is a name, a member or an element.
#[tactic(auto, unfolding(kotlin_grammar::specs::Meaning::is_target))]
pub fn is_target(tree: &KExpr) -> bool
    ensures { result ≡ is_target_of tree.now }
{
    match tree {
        KExpr::Name(_) => true,
        KExpr::Field(_, _, _) => true,
        KExpr::Element(_, _, _) => true,
        _ => false,
    }
}
