// Expressions and statements.

ghost use Rattle.std.specs.Prelude.{◌≡◌, ◌∷◌, [], ◌++◌, OnOk, map};
ghost use Rattle.kotlin_layout.specs.Layout.{laid};
ghost use Rattle.kotlin_layout.specs.Parens as r;
ghost use Rattle.kotlin_layout.specs.Roles.{listed, joined, lines as lines_of, block as block_of, comma as comma_glyphs, next as next_glyphs};
ghost use Rattle.kotlin_layout.specs.Shown as s;

use crate::places::{FREE, LISTED, left_place, operand, prefix_place, right_place};
use crate::tokens::{
    assigns, blank, class_of, close_block, comma, dot_name, else_line, else_value, else_word,
    for_head, has_type, head, keyword, line, mark, next, open_block, operator_glyph, postfix_mark,
    prefix_mark, spaced, word,
};
use crate::types::{kind, qualified, type_arguments};
use j2k_base::{Name, NoMemory};
use kotlin_layout::{Glyph, Place, needs_parens};
use kotlin_token_printer::Printer;
use kotlin_tree::{
    KBranch, KCatch, KChoice, KDeclared, KExpr, KLabel, KName, KStmt, KTarget, KVariability,
    Keyword, Mark, Word,
};

fn variability(word: KVariability) -> Glyph
    ensures { result ≡ s.variability_word word }
{
    match word {
        KVariability::Val => Glyph::Keyword(Keyword::Val),
        KVariability::Var => Glyph::Keyword(Keyword::Var),
    }
}

/// `val` or `var`, the name, the type.
#[tactic(auto, using(kotlin_layout::proofs::LawsToCite::walks))]
pub fn declared(p: &mut Printer, x: &KDeclared) -> Result<(), NoMemory>
    ensures { OnOk result (p.new ≡ laid (s.declared_roles x.now) p.old) }
{
    p.fixed(&[variability(x.word), Glyph::Blank])?;
    p.name(&x.name.name)?;
    has_type(p)?;
    kind(p, &x.kind)
}

#[tactic(auto, using(kotlin_layout::proofs::LawsToCite::walks))]
fn label(p: &mut Printer, x: &Option<KLabel>) -> Result<(), NoMemory>
    ensures { OnOk result (p.new ≡ laid (s.label_roles x.now) p.old) }
{
    match x {
        None => Ok(()),
        Some(x) => {
            p.name(&x.name.name)?;
            p.fixed(&[Glyph::Mark(Mark::At), Glyph::Blank])
        }
    }
}

/// The name behind `@`.
#[tactic(auto, using(kotlin_layout::proofs::LawsToCite::walks))]
fn target_name(p: &mut Printer, name: &Name) -> Result<(), NoMemory>
    ensures { OnOk result (p.new ≡ laid (s.target_name name.now) p.old) }
{
    if name.as_bytes() == b"synchronized".as_slice() {
        word(p, Word::SynchronizedBlock)
    } else {
        p.name(name)
    }
}

#[tactic(auto, using(kotlin_layout::proofs::LawsToCite::walks))]
fn target(p: &mut Printer, x: &Option<KTarget>) -> Result<(), NoMemory>
    ensures { OnOk result (p.new ≡ laid (s.target_roles x.now) p.old) }
{
    match x {
        None => Ok(()),
        Some(x) => {
            mark(p, Mark::At)?;
            target_name(p, &x.name.name)
        }
    }
}

#[tactic(auto, using(kotlin_layout::proofs::LawsToCite::walks))]
fn names(p: &mut Printer, list: &[KName]) -> Result<(), NoMemory>
    ensures { OnOk result (p.new ≡ laid (listed comma_glyphs (map s.name_of list.now)) p.old) }
{
    let mut is_first = true;
    for x in list {
        comma(p, is_first)?;
        p.name(&x.name)?;
        is_first = false;
    }
    Ok(())
}

// The names of a lambda, where there are some.
#[tactic(auto, using(kotlin_layout::proofs::LawsToCite::walks))]
fn lambda_names(p: &mut Printer, list: &[KName]) -> Result<(), NoMemory>
    ensures { OnOk result (p.new ≡ laid (s.lambda_names list.now) p.old) }
{
    if let [] = list {
        return Ok(());
    }
    blank(p)?;
    names(p, list)?;
    p.fixed(&[Glyph::Blank, Glyph::Mark(Mark::Arrow)])
}

/// An expression at a place, in parentheses where it needs them.
#[cycle(walk)]
#[tactic(auto, using(kotlin_layout::proofs::LawsToCite::walks, kotlin_layout::proofs::LawsToCite::expression_is))]
pub fn expression(p: &mut Printer, place: Place, x: &KExpr) -> Result<(), NoMemory>
    ensures { OnOk result (p.new ≡ laid (s.expression_roles x.now place) p.old) }
{
    if needs_parens(place, x) {
        mark(p, Mark::OpenRound)?;
        bare(p, FREE, x)?;
        mark(p, Mark::CloseRound)
    } else {
        bare(p, place, x)
    }
}

// An expression as it is.
#[cycle(walk)]
#[tactic(auto, using(kotlin_layout::proofs::LawsToCite::walks, kotlin_layout::proofs::LawsToCite::expressions))]
fn bare(p: &mut Printer, place: Place, x: &KExpr) -> Result<(), NoMemory>
    ensures { OnOk result (p.new ≡ laid (s.bare_roles place x.now) p.old) }
{
    match x {
        KExpr::Literal(literal, _) => p.literal(literal),
        KExpr::Name(name) => p.name(&name.name),
        KExpr::This(_) => keyword(p, Keyword::This),
        KExpr::Paren(_, inner) => in_round(p, inner.get()),
        KExpr::Call {
            name,
            types,
            arguments: list,
            ..
        } => {
            p.name(&name.name)?;
            type_arguments(p, types)?;
            arguments(p, list.as_slice())
        }
        KExpr::SuperCall {
            name,
            arguments: list,
            ..
        } => {
            p.fixed(&[Glyph::Keyword(Keyword::Super), Glyph::Mark(Mark::Dot)])?;
            p.name(&name.name)?;
            arguments(p, list.as_slice())
        }
        KExpr::Field(object, _, name) => {
            expression(p, operand(11, place), object.get())?;
            dot_name(p, &name.name)
        }
        KExpr::Method {
            object,
            name,
            types,
            arguments: list,
            ..
        } => {
            expression(p, operand(11, place), object.get())?;
            dot_name(p, &name.name)?;
            type_arguments(p, types)?;
            arguments(p, list.as_slice())
        }
        KExpr::Element(array, _, index) => {
            expression(p, operand(11, place), array.get())?;
            mark(p, Mark::OpenSquare)?;
            expression(p, FREE, index.get())?;
            mark(p, Mark::CloseSquare)
        }
        KExpr::Postfix(inner, operator, _) => {
            expression(p, operand(11, place), inner.get())?;
            mark(p, postfix_mark(*operator))
        }
        KExpr::Prefix(operator, _, inner) => {
            mark(p, prefix_mark(*operator))?;
            expression(p, prefix_place(*operator, place), inner.get())
        }
        KExpr::As(value, _, to) => {
            expression(p, operand(9, place), value.get())?;
            spaced(p, Glyph::Keyword(Keyword::As))?;
            kind(p, to)
        }
        KExpr::Is(value, _, to) => {
            expression(p, operand(5, place), value.get())?;
            spaced(p, Glyph::Keyword(Keyword::Is))?;
            kind(p, to)
        }
        KExpr::Binary {
            left,
            operator,
            right,
            ..
        } => {
            expression(p, left_place(*operator, place), left.get())?;
            spaced(p, operator_glyph(*operator))?;
            expression(p, right_place(*operator, place), right.get())
        }
        KExpr::IfValue {
            condition,
            value,
            other,
            ..
        } => {
            headed(p, Glyph::Keyword(Keyword::If), condition.get())?;
            blank(p)?;
            expression(p, operand(0, place), value.get())?;
            spaced(p, Glyph::Keyword(Keyword::Else))?;
            expression(p, operand(0, place), other.get())
        }
        KExpr::WhenValue {
            subject,
            choices: list,
            other,
            ..
        } => {
            headed(p, Glyph::Keyword(Keyword::When), subject.get())?;
            open_block(p)?;
            choices(p, list.as_slice())?;
            else_value(p)?;
            expression(p, FREE, other.get())?;
            close_block(p)
        }
        KExpr::Lambda {
            face,
            names,
            statements: list,
            ..
        } => {
            kind(p, face)?;
            p.fixed(&[Glyph::Blank, Glyph::Mark(Mark::OpenCurly)])?;
            lambda_names(p, names.items.as_slice())?;
            p.fixed(&[Glyph::Deeper])?;
            lines(p, list.as_slice())?;
            close_block(p)
        }
        KExpr::Run(_, _, list) => {
            p.fixed(&[
                Glyph::Word(Word::Run),
                Glyph::Blank,
                Glyph::Mark(Mark::OpenCurly),
                Glyph::Blank,
            ])?;
            in_line(p, list.as_slice())?;
            p.fixed(&[Glyph::Blank, Glyph::Mark(Mark::CloseCurly)])
        }
        KExpr::Class(name, _) => {
            qualified(p, name)?;
            class_of(p)
        }
    }
}

// An expression in parentheses.
#[cycle(walk)]
#[tactic(auto, using(kotlin_layout::proofs::LawsToCite::walks))]
fn in_round(p: &mut Printer, x: &KExpr) -> Result<(), NoMemory>
    ensures { OnOk result (p.new ≡ laid (s.in_round (s.expression_roles x.now r.free_place)) p.old) }
{
    mark(p, Mark::OpenRound)?;
    expression(p, FREE, x)?;
    mark(p, Mark::CloseRound)
}

// A word, a blank, an expression in parentheses.
#[cycle(walk)]
#[tactic(auto, using(kotlin_layout::proofs::LawsToCite::walks))]
fn headed(p: &mut Printer, word: Glyph, x: &KExpr) -> Result<(), NoMemory>
    ensures { OnOk result (p.new ≡ laid (s.headed word (s.expression_roles x.now r.free_place)) p.old) }
{
    head(p, word)?;
    expression(p, FREE, x)?;
    mark(p, Mark::CloseRound)
}

/// Arguments in parentheses.
#[cycle(walk)]
#[tactic(auto, using(kotlin_layout::proofs::LawsToCite::walks, kotlin_layout::proofs::LawsToCite::placed_map))]
pub fn arguments(p: &mut Printer, list: &[KExpr]) -> Result<(), NoMemory>
    ensures { OnOk result (p.new ≡ laid (s.arguments_roles (map s.expression_roles list.now)) p.old) }
{
    mark(p, Mark::OpenRound)?;
    expressions(p, list)?;
    mark(p, Mark::CloseRound)
}

// Expressions with commas between them.
#[cycle(walk)]
#[tactic(auto, using(kotlin_layout::proofs::LawsToCite::walks))]
fn expressions(p: &mut Printer, list: &[KExpr]) -> Result<(), NoMemory>
    ensures { OnOk result (p.new ≡ laid (listed comma_glyphs (map s.argument_roles list.now)) p.old) }
{
    let mut is_first = true;
    for x in list {
        comma(p, is_first)?;
        expression(p, LISTED, x)?;
        is_first = false;
    }
    Ok(())
}

// The labels of an alternative.
#[cycle(walk)]
#[tactic(auto, using(kotlin_layout::proofs::LawsToCite::walks))]
fn labels(p: &mut Printer, list: &[KExpr]) -> Result<(), NoMemory>
    ensures { OnOk result (p.new ≡ laid (s.labels (map s.argument_roles list.now)) p.old) }
{
    expressions(p, list)?;
    p.fixed(&[Glyph::Blank, Glyph::Mark(Mark::Arrow)])
}

#[cycle(walk)]
#[tactic(auto, using(kotlin_layout::proofs::LawsToCite::walks, kotlin_layout::proofs::LawsToCite::choice_is))]
fn choice(p: &mut Printer, x: &KChoice) -> Result<(), NoMemory>
    ensures { OnOk result (p.new ≡ laid (s.choice_roles x.now) p.old) }
{
    labels(p, x.labels.as_slice())?;
    blank(p)?;
    expression(p, FREE, &x.value)
}

// Alternatives with values, each on a line of its own.
#[cycle(walk)]
#[tactic(auto, using(kotlin_layout::proofs::LawsToCite::walks))]
fn choices(p: &mut Printer, list: &[KChoice]) -> Result<(), NoMemory>
    ensures { OnOk result (p.new ≡ laid (lines_of (map s.choice_roles list.now)) p.old) }
{
    for x in list {
        line(p)?;
        choice(p, x)?;
    }
    Ok(())
}

#[cycle(walk)]
#[tactic(auto, using(kotlin_layout::proofs::LawsToCite::walks, kotlin_layout::proofs::LawsToCite::branch_is))]
fn branch(p: &mut Printer, x: &KBranch) -> Result<(), NoMemory>
    ensures { OnOk result (p.new ≡ laid (s.branch_roles x.now) p.old) }
{
    labels(p, x.labels.as_slice())?;
    block(p, x.statements.as_slice())
}

// Alternatives with blocks, each on lines of its own.
#[cycle(walk)]
#[tactic(auto, using(kotlin_layout::proofs::LawsToCite::walks))]
fn branches(p: &mut Printer, list: &[KBranch]) -> Result<(), NoMemory>
    ensures { OnOk result (p.new ≡ laid (lines_of (map s.branch_roles list.now)) p.old) }
{
    for x in list {
        line(p)?;
        branch(p, x)?;
    }
    Ok(())
}

#[cycle(walk)]
#[tactic(auto, using(kotlin_layout::proofs::LawsToCite::walks, kotlin_layout::proofs::LawsToCite::catch_is))]
fn catch(p: &mut Printer, x: &KCatch) -> Result<(), NoMemory>
    ensures { OnOk result (p.new ≡ laid (s.catch_roles x.now) p.old) }
{
    blank(p)?;
    head(p, Glyph::Word(Word::Catch))?;
    p.name(&x.name.name)?;
    has_type(p)?;
    kind(p, &x.kind)?;
    mark(p, Mark::CloseRound)?;
    block(p, x.statements.as_slice())
}

#[cycle(walk)]
#[tactic(auto, using(kotlin_layout::proofs::LawsToCite::walks))]
fn catches(p: &mut Printer, list: &[KCatch]) -> Result<(), NoMemory>
    ensures { OnOk result (p.new ≡ laid (joined (map s.catch_roles list.now)) p.old) }
{
    for x in list {
        catch(p, x)?;
    }
    Ok(())
}

// Statements on one line.
#[cycle(walk)]
#[tactic(auto, using(kotlin_layout::proofs::LawsToCite::walks))]
fn in_line(p: &mut Printer, list: &[KStmt]) -> Result<(), NoMemory>
    ensures { OnOk result (p.new ≡ laid (listed next_glyphs (map s.statement_roles list.now)) p.old) }
{
    let mut is_first = true;
    for x in list {
        next(p, is_first)?;
        statement(p, x)?;
        is_first = false;
    }
    Ok(())
}

// Statements, each on lines of its own.
#[cycle(walk)]
#[tactic(auto, using(kotlin_layout::proofs::LawsToCite::walks))]
fn lines(p: &mut Printer, list: &[KStmt]) -> Result<(), NoMemory>
    ensures { OnOk result (p.new ≡ laid (lines_of (map s.statement_roles list.now)) p.old) }
{
    for x in list {
        line(p)?;
        statement(p, x)?;
    }
    Ok(())
}

/// A block.
#[cycle(walk)]
#[tactic(auto, using(kotlin_layout::proofs::LawsToCite::walks))]
pub fn block(p: &mut Printer, list: &[KStmt]) -> Result<(), NoMemory>
    ensures { OnOk result (p.new ≡ laid (block_of (map s.statement_roles list.now)) p.old) }
{
    open_block(p)?;
    lines(p, list)?;
    close_block(p)
}

// A statement.
#[cycle(walk)]
#[tactic(auto, using(kotlin_layout::proofs::LawsToCite::walks, kotlin_layout::proofs::LawsToCite::statements))]
fn statement(p: &mut Printer, x: &KStmt) -> Result<(), NoMemory>
    ensures { OnOk result (p.new ≡ laid (s.statement_roles x.now) p.old) }
{
    match x {
        KStmt::Commented(comments, inner) => {
            p.comments(comments)?;
            statement(p, inner.get())
        }
        KStmt::Declared(x) => declared(p, x),
        KStmt::Local(x, _, value) => {
            declared(p, x)?;
            assigns(p)?;
            expression(p, FREE, value)
        }
        KStmt::Expression(x) => expression(p, FREE, x),
        KStmt::Assign(x, _, value) => {
            expression(p, operand(11, FREE), x)?;
            assigns(p)?;
            expression(p, FREE, value)
        }
        KStmt::While {
            label: name,
            condition,
            statements,
            ..
        } => {
            label(p, name)?;
            headed(p, Glyph::Keyword(Keyword::While), condition)?;
            block(p, statements.as_slice())
        }
        KStmt::DoWhile {
            label: name,
            statements,
            condition,
            ..
        } => {
            label(p, name)?;
            keyword(p, Keyword::Do)?;
            block(p, statements.as_slice())?;
            blank(p)?;
            headed(p, Glyph::Keyword(Keyword::While), condition)
        }
        KStmt::For {
            label: loop_name,
            name,
            values,
            statements,
            ..
        } => {
            label(p, loop_name)?;
            for_head(p, name)?;
            expression(p, FREE, values)?;
            mark(p, Mark::CloseRound)?;
            block(p, statements.as_slice())
        }
        KStmt::ForRange {
            label: loop_name,
            name,
            first,
            end,
            statements,
            ..
        } => {
            label(p, loop_name)?;
            for_head(p, name)?;
            expression(p, operand(6, FREE), first)?;
            spaced(p, Glyph::Word(Word::Until))?;
            expression(p, operand(7, FREE), end)?;
            mark(p, Mark::CloseRound)?;
            block(p, statements.as_slice())
        }
        KStmt::If {
            condition,
            statements,
            ..
        } => {
            headed(p, Glyph::Keyword(Keyword::If), condition)?;
            block(p, statements.as_slice())
        }
        KStmt::IfElse {
            condition,
            statements,
            others,
            ..
        } => {
            headed(p, Glyph::Keyword(Keyword::If), condition)?;
            block(p, statements.as_slice())?;
            else_word(p)?;
            block(p, others.as_slice())
        }
        KStmt::IfElseIf {
            condition,
            statements,
            other,
            ..
        } => {
            headed(p, Glyph::Keyword(Keyword::If), condition)?;
            block(p, statements.as_slice())?;
            spaced(p, Glyph::Keyword(Keyword::Else))?;
            statement(p, other.get())
        }
        KStmt::When {
            subject,
            branches: list,
            others,
            ..
        } => {
            headed(p, Glyph::Keyword(Keyword::When), subject)?;
            open_block(p)?;
            branches(p, list.as_slice())?;
            else_line(p)?;
            block(p, others.as_slice())?;
            close_block(p)
        }
        KStmt::Break(_, name) => {
            keyword(p, Keyword::Break)?;
            target(p, name)
        }
        KStmt::Continue(_, name) => {
            keyword(p, Keyword::Continue)?;
            target(p, name)
        }
        KStmt::Return(_, name) => {
            keyword(p, Keyword::Return)?;
            target(p, name)
        }
        KStmt::Give(_, name, value) => {
            keyword(p, Keyword::Return)?;
            target(p, name)?;
            blank(p)?;
            expression(p, FREE, value)
        }
        KStmt::Throw(_, value) => {
            p.fixed(&[Glyph::Keyword(Keyword::Throw), Glyph::Blank])?;
            expression(p, FREE, value)
        }
        KStmt::Try {
            statements,
            catches: list,
            ..
        } => {
            keyword(p, Keyword::Try)?;
            block(p, statements.as_slice())?;
            catches(p, list.as_slice())
        }
        KStmt::TryFinally {
            statements,
            catches: list,
            last,
            ..
        } => {
            keyword(p, Keyword::Try)?;
            block(p, statements.as_slice())?;
            catches(p, list.as_slice())?;
            p.fixed(&[Glyph::Blank, Glyph::Word(Word::Finally)])?;
            block(p, last.as_slice())
        }
        KStmt::Synchronized {
            lock,
            statements,
            ..
        } => {
            word(p, Word::SynchronizedBlock)?;
            in_round(p, lock)?;
            block(p, statements.as_slice())
        }
    }
}
