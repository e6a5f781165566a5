// What is said of names.
ghost use Rattle.std.specs.Prelude.{◌≡◌, ◌++◌, IfOk};
ghost use Rattle.java_name_uses.specs.Uses as s;

use j2k_base::{Name, NoMemory};
use java_tree::Position;
use sqlite_items::Items;
use std::alloc::Global;

/// What stands at no token.
#[derive(Clone, Copy, Debug, PartialEq, Eq)]
pub enum Sign {
    /// A scope of its own begins (JLS 6.3).
    Open,
    /// A loop, which `break` and `continue` may mean (JLS 14.15, 14.16).
    OpenLoop,
    /// The block of a switch, which `break` may mean.
    OpenSwitch,
    /// A lambda, out of which no jump leads (JLS 15.27.2).
    OpenLambda,
    /// The arguments of `this(..)` and `super(..)`, where there is no object yet (JLS 8.8.7.1).
    OpenArguments,
    /// What was opened last, a label too, ends.
    Close,
    /// The expression before is used as a value (JLS 6.5.1).
    Value,
    /// The name of a type ends.
    TypeEnd,
    /// The block of a lambda.
    Block,
    /// The body of an anonymous class, which isn't gone into.
    Skipped,
}

/// What stands at a token that is no identifier.
#[derive(Clone, Copy, Debug, PartialEq, Eq)]
pub enum Word {
    This,
    /// `super`, before a dot and the name of a method.
    Super,
    Break,
    Continue,
    Return,
    /// The first token of a form that isn't built yet.
    NotBuilt,
}

/// What an identifier stands for.
#[derive(Clone, Copy, Debug, PartialEq, Eq)]
pub enum Naming {
    /// The first of the name of a type (JLS 6.5.5).
    Type,
    /// A later one of such a name, behind a dot.
    TypePart,
    /// An expression, or the first of a name with dots (JLS 6.5.2).
    Expression,
    /// A field, or a part of a name, behind an expression and a dot.
    Selected,
    /// The name of a method that is called (JLS 6.5.7).
    Method,
    /// The same, behind an expression and a dot.
    SelectedMethod,
    /// The same, behind `super` and a dot.
    SuperMethod,
    /// A variable that is declared here: a local, a parameter, what a `catch` or a `for` declares (JLS 6.1).
    Variable,
    /// A label that is declared, with the scope of its statement (JLS 14.7).
    Label,
    BreakTo,
    ContinueTo,
}

/// One thing that is said of names.
#[derive(Drop)]
pub enum Use {
    Sign(Sign),
    Word(Word, Position),
    Name(Naming, Name, Position),
}

/// What is said, in its order.
pub type Uses = Items<Use>;

pub fn put_sign(out: &mut Uses, sign: Sign) -> Result<(), NoMemory>
    ensures { IfOk result (λ u. out.new ≡ out.old ++ s.signed sign) }
{
    out.push(Use::Sign(sign))?;
    Ok(())
}

pub fn put_word(out: &mut Uses, word: Word, at: Position) -> Result<(), NoMemory>
    ensures { IfOk result (λ u. out.new ≡ out.old ++ s.word word at) }
{
    out.push(Use::Word(word, at))?;
    Ok(())
}

pub fn put_name(
    alloc: Global,
    out: &mut Uses,
    naming: Naming,
    name: &Name,
    at: Position,
) -> Result<(), NoMemory>
    ensures { IfOk result (λ u. out.new ≡ out.old ++ s.named naming name.now at) }
{
    let name = Name::from_str(alloc, name.as_str())?;
    out.push(Use::Name(naming, name, at))?;
    Ok(())
}
