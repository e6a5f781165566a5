// The kind of a token, by the letters behind it.

ghost use Rattle.std.specs.Prelude.{◌≡◌, ◌<◌, length, true, false};
ghost use Rattle.kotlin_grammar.specs.Ahead.{
  named as named_of,
  label_of as label_of_of,
  set_ahead as set_ahead_of,
  curly_kind as curly_kind_of,
  mark_kind as mark_kind_of,
  keyword_kind as keyword_kind_of,
  word_kind as word_kind_of,
  kind_of as kind_of_of,
};

use crate::names::names_follow;
use crate::spots::{
    arguments_ahead, arrow_stands, at_stands, curly_stands, is_semicolon, less_stands, round_stands,
};
use grammar::Stack;
use kotlin_grammar::{Kind, Letter};
use kotlin_tree::{Keyword, Mark, TokenKind, Word};

fn label_of(kind: Kind) -> Kind
    ensures { result ≡ label_of_of kind }
{
    match kind {
        Kind::ModifierWord => Kind::LabelModifier,
        Kind::PrivateWord => Kind::LabelModifier,
        Kind::AnnotationWord => Kind::LabelAnnotation,
        _ => Kind::Label,
    }
}

#[tactic(auto, unfolding(kotlin_grammar::specs::Ahead::named))]
fn named(kind: Kind, letters: &Stack<Letter>) -> Kind
    requires { length letters.now < 4294967296 }
    ensures { result ≡ named_of kind letters.now }
{
    if less_stands(letters) {
        if arguments_ahead(letters) {
            Kind::NameArguments
        } else {
            Kind::NameLess
        }
    } else {
        if at_stands(letters) {
            label_of(kind)
        } else {
            kind
        }
    }
}

fn set_ahead(letters: &Stack<Letter>) -> bool
    ensures { result ≡ set_ahead_of letters.now }
{
    match letters.peek(0) {
        None => false,
        Some(letter) => {
            if is_semicolon(letter.token.gap) {
                false
            } else {
                matches!(letter.kind, Kind::SetWord)
            }
        }
    }
}

fn curly_kind(letters: &Stack<Letter>) -> Kind
    ensures { result ≡ curly_kind_of letters.now }
{
    if arrow_stands(letters) {
        Kind::OpenParameters
    } else {
        if names_follow(letters) {
            Kind::OpenParameters
        } else {
            Kind::OpenCurly
        }
    }
}

#[tactic(auto, unfolding(kotlin_grammar::specs::Ahead::mark_kind))]
fn mark_kind(mark: Mark, letters: &Stack<Letter>) -> Kind
    ensures { result ≡ mark_kind_of mark letters.now }
{
    match mark {
        Mark::OpenRound => Kind::OpenRound,
        Mark::CloseRound => Kind::CloseRound,
        Mark::OpenSquare => Kind::OpenSquare,
        Mark::CloseSquare => Kind::CloseSquare,
        Mark::OpenCurly => curly_kind(letters),
        Mark::CloseCurly => Kind::CloseCurly,
        Mark::Comma => Kind::Comma,
        Mark::Dot => Kind::Dot,
        Mark::At => Kind::At,
        Mark::Question => Kind::Question,
        Mark::Colon => Kind::Colon,
        Mark::DoubleColon => Kind::DoubleColon,
        Mark::Assign => Kind::Assign,
        Mark::Equal => Kind::Equality,
        Mark::Identical => Kind::Equality,
        Mark::Not => Kind::Not,
        Mark::NotNull => Kind::NotNull,
        Mark::NotEqual => Kind::Equality,
        Mark::NotIdentical => Kind::Equality,
        Mark::Plus => Kind::Sign,
        Mark::PlusPlus => Kind::Step,
        Mark::Minus => Kind::Sign,
        Mark::MinusMinus => Kind::Step,
        Mark::Arrow => Kind::Arrow,
        Mark::Star => Kind::Times,
        Mark::Slash => Kind::Times,
        Mark::Percent => Kind::Times,
        Mark::AndAnd => Kind::AndAnd,
        Mark::OrOr => Kind::OrOr,
        Mark::Less => Kind::Less,
        Mark::LessEqual => Kind::Compare,
        Mark::Greater => Kind::Greater,
        Mark::GreaterEqual => Kind::Compare,
    }
}

#[tactic(auto, unfolding(kotlin_grammar::specs::Ahead::keyword_kind))]
fn keyword_kind(word: Keyword, letters: &Stack<Letter>) -> Kind
    ensures { result ≡ keyword_kind_of word letters.now }
{
    match word {
        Keyword::As => Kind::As,
        Keyword::Break => Kind::Break,
        Keyword::Class => Kind::Class,
        Keyword::Continue => Kind::Continue,
        Keyword::Do => Kind::Do,
        Keyword::Else => {
            if arrow_stands(letters) {
                Kind::ElseArrow
            } else {
                Kind::Else
            }
        }
        Keyword::False => Kind::Literal,
        Keyword::For => Kind::For,
        Keyword::Fun => Kind::Fun,
        Keyword::If => Kind::If,
        Keyword::In => Kind::In,
        Keyword::Interface => Kind::Interface,
        Keyword::Is => Kind::Is,
        Keyword::Null => Kind::Literal,
        Keyword::Object => Kind::Object,
        Keyword::Package => Kind::Package,
        Keyword::Return => Kind::Return,
        Keyword::Super => Kind::SuperWord,
        Keyword::This => Kind::This,
        Keyword::Throw => Kind::Throw,
        Keyword::True => Kind::Literal,
        Keyword::Try => Kind::Try,
        Keyword::Typealias => Kind::Unused,
        Keyword::Typeof => Kind::Unused,
        Keyword::Val => Kind::Val,
        Keyword::Var => Kind::Var,
        Keyword::When => Kind::When,
        Keyword::While => Kind::While,
    }
}

#[tactic(auto, unfolding(kotlin_grammar::specs::Ahead::word_kind))]
fn word_kind(word: Word, letters: &Stack<Letter>) -> Kind
    requires { length letters.now < 4294967296 }
    ensures { result ≡ word_kind_of word letters.now }
{
    match word {
        Word::Abstract => named(Kind::ModifierWord, letters),
        Word::And => named(Kind::InfixWord, letters),
        Word::Catch => Kind::Catch,
        Word::Companion => named(Kind::CompanionWord, letters),
        Word::Const => named(Kind::ModifierWord, letters),
        Word::Constructor => named(Kind::ConstructorWord, letters),
        Word::Finally => Kind::FinallyWord,
        Word::Import => named(Kind::ImportWord, letters),
        Word::Init => named(Kind::InitWord, letters),
        Word::Java => named(Kind::JavaWord, letters),
        Word::JvmField => named(Kind::AnnotationWord, letters),
        Word::JvmStatic => named(Kind::AnnotationWord, letters),
        Word::Open => named(Kind::ModifierWord, letters),
        Word::Or => named(Kind::InfixWord, letters),
        Word::Override => named(Kind::ModifierWord, letters),
        Word::Private => {
            if set_ahead(letters) {
                Kind::PrivateSet
            } else {
                named(Kind::PrivateWord, letters)
            }
        }
        Word::Run => {
            if curly_stands(letters, 0) {
                Kind::RunBlock
            } else {
                named(Kind::Name, letters)
            }
        }
        Word::Set => named(Kind::SetWord, letters),
        Word::Shl => named(Kind::InfixWord, letters),
        Word::Shr => named(Kind::InfixWord, letters),
        Word::SynchronizedBlock => {
            if round_stands(letters) {
                Kind::SynchronizedBlock
            } else {
                named(Kind::Name, letters)
            }
        }
        Word::SynchronizedMethod => named(Kind::AnnotationWord, letters),
        Word::Until => named(Kind::UntilWord, letters),
        Word::Ushr => named(Kind::InfixWord, letters),
        Word::Volatile => named(Kind::AnnotationWord, letters),
        Word::Xor => named(Kind::InfixWord, letters),
    }
}

pub fn kind_of(kind: &TokenKind, letters: &Stack<Letter>) -> Kind
    requires { length letters.now < 4294967296 }
    ensures { result ≡ kind_of_of kind.now letters.now }
{
    match kind {
        TokenKind::Mark(mark) => mark_kind(*mark, letters),
        TokenKind::Keyword(word) => keyword_kind(*word, letters),
        TokenKind::Word(word) => word_kind(*word, letters),
        TokenKind::Name(_) => named(Kind::Name, letters),
        TokenKind::Integer(_) => Kind::Literal,
        TokenKind::Long(_) => Kind::Literal,
        TokenKind::Character(_) => Kind::Literal,
        TokenKind::Text(_) => Kind::Literal,
        TokenKind::End => Kind::Unused,
    }
}
