//! Statements behind what comes first in them (JLS 14).

ghost use Rattle.std.specs.Prelude.{◌≡◌, ◌≤◌, ◌<◌, ◌+◌, ◌^◌, length};
ghost use Rattle.java_unit_grammar.specs.Reading as r;
ghost use Rattle.java_token_cursor.specs.Shown.{shown};
ghost use Rattle.java_type_parser.specs.Gives.{Gives};
ghost use Rattle.java_modifier_rules.specs.Fits.{role_seen};
ghost use Rattle.java_block_parser.specs.Asks.{Nests, Shorter, found, rounded};
ghost use Rattle.java_block_parser.specs.Statements.{do_end, if_behind, lock_behind, loop_behind, simple_end, while_behind};

use crate::asks::{Answer, Ask, Headed, Part, Rounded};
use crate::grammar::Grammar;
use crate::tokens::semicolon;
use j2k_base::Name;
use java_modifier_rules::{Role, may_stand};
use java_statement_grammar::{JForHead, JLock, JSimple};
use java_token_cursor::{Head, Pieces, first};
use java_tree::{JExpr, Keyword, Position};
use java_type_parser::let_go;
use java_unit_grammar::JStatement;
use sqlite_items::Boxed;
use std::alloc::Global;

/// A simple statement where a `;` comes first of the pieces.
pub fn simple_end<'a>(
    alloc: Global,
    role: Role,
    headed: Headed<JSimple>,
    pieces: Pieces<'a>,
) -> Answer<'a, Boxed<JStatement>>
    ensures { Gives found (Shorter pieces.now) (simple_end (role_seen role) headed.0 headed.1 (shown pieces.now)) result }
{
    match semicolon(pieces) {
        Some((end, rest)) if may_stand(role, headed.0.get()) => {
            let (head, bodies) = headed;
            let tree = JStatement::Simple(head.into_inner(), bodies, end);
            Ok(Some((Boxed::new(alloc, tree)?, rest)))
        }
        _ => {
            let_go(headed);
            Ok(None)
        }
    }
}

/// A `do` where a `;` comes first of the pieces.
pub fn do_end<'a>(
    alloc: Global,
    at: Position,
    body: (Boxed<JStatement>, Position),
    test: Rounded<JExpr>,
    pieces: Pieces<'a>,
) -> Answer<'a, Boxed<JStatement>>
    ensures { Gives found (Shorter pieces.now) (do_end at body.0 body.1 (rounded test) (shown pieces.now)) result }
{
    let Some((end, rest)) = semicolon(pieces) else {
        let_go((body, test));
        return Ok(None);
    };
    let (body, again) = body;
    let (opens, head, bodies, closes) = test;
    let head = head.into_inner();
    let tree = JStatement::Do(at, body, again, opens, head, bodies, closes, end);
    Ok(Some((Boxed::new(alloc, tree)?, rest)))
}

impl<F: for<'a, 'b> Fn(Global, Pieces<'a>, Ask<'b>, usize, usize) -> Answer<'a, Part>> Grammar<F> {
    #[tactic(auto, unfolding(java_unit_grammar::specs::Reading::block_statement))]
    pub fn block_statement<'a>(&self, pieces: Pieces<'a>) -> Answer<'a, Boxed<JStatement>>
        requires nests { Nests self.now.depth self.now.steps (F.pre self.now.read) (F.post self.now.read) }
        requires size { length pieces.now < 2 ^ 32 }
        ensures { Gives found (Shorter pieces.now) (r.block_statement (r.readers self.now.steps) self.now.depth (shown pieces.now)) result }
    {
        let Some(((opens, items, closes), rest)) = self.inner_braces(pieces, self.depth)? else {
            return Ok(None);
        };
        let tree = Boxed::new(self.alloc, JStatement::Block(opens, items, closes))?;
        Ok(Some((tree, rest)))
    }

    /// Behind a label and its `:`.
    #[tactic(auto, unfolding(java_unit_grammar::specs::Reading::labeled))]
    pub fn labeled<'a>(
        &self,
        name: Name,
        at: Position,
        colon: Position,
        pieces: Pieces<'a>,
    ) -> Answer<'a, Boxed<JStatement>>
        requires nests { Nests self.now.depth self.now.steps (F.pre self.now.read) (F.post self.now.read) }
        requires size { length pieces.now < 2 ^ 32 }
        ensures { Gives found (Shorter pieces.now) (r.labeled (r.readers self.now.steps) self.now.depth name at colon (shown pieces.now)) result }
    {
        match self.sole(pieces) {
            Ok(Some((body, rest))) => {
                let tree = Boxed::new(self.alloc, JStatement::Labeled(name, at, colon, body))?;
                Ok(Some((tree, rest)))
            }
            Ok(None) => {
                let_go(name);
                Ok(None)
            }
            Err(error) => {
                let_go(name);
                Err(error)
            }
        }
    }

    /// Behind an `else`.
    #[tactic(auto, unfolding(java_unit_grammar::specs::Reading::else_read))]
    pub fn else_read<'a>(
        &self,
        at: Position,
        test: Rounded<JExpr>,
        then: Boxed<JStatement>,
        else_at: Position,
        pieces: Pieces<'a>,
    ) -> Answer<'a, Boxed<JStatement>>
        requires nests { Nests self.now.depth self.now.steps (F.pre self.now.read) (F.post self.now.read) }
        requires size { length pieces.now < 2 ^ 32 }
        ensures { Gives found (Shorter pieces.now) (r.else_read (r.readers self.now.steps) self.now.depth at (rounded test) then else_at (shown pieces.now)) result }
    {
        match self.sole(pieces) {
            Ok(Some((other, rest))) => {
                let (opens, head, bodies, closes) = test;
                let head = head.into_inner();
                let tree = JStatement::IfElse(
                    at, opens, head, bodies, closes, then, else_at, other,
                );
                let tree = Boxed::new(self.alloc, tree)?;
                Ok(Some((tree, rest)))
            }
            Ok(None) => {
                let_go((test, then));
                Ok(None)
            }
            Err(error) => {
                let_go((test, then));
                Err(error)
            }
        }
    }

    /// Behind the condition of an `if` and its statement.
    #[tactic(auto, using(crate::proofs::Steps::ends))]
    pub fn if_end<'a>(
        &self,
        at: Position,
        test: Rounded<JExpr>,
        then: Boxed<JStatement>,
        pieces: Pieces<'a>,
    ) -> Answer<'a, Boxed<JStatement>>
        requires nests { Nests self.now.depth self.now.steps (F.pre self.now.read) (F.post self.now.read) }
        requires size { length pieces.now < 2 ^ 32 }
        ensures { Gives found (Shorter pieces.now) (r.if_end (r.readers self.now.steps) self.now.depth at (rounded test) then (shown pieces.now)) result }
    {
        if let Head::Word(Keyword::Else, else_at, rest) = first(pieces) {
            return self.else_read(at, test, then, else_at, rest);
        }
        let (opens, head, bodies, closes) = test;
        let tree = JStatement::If(at, opens, head.into_inner(), bodies, closes, then);
        let tree = Boxed::new(self.alloc, tree)?;
        Ok(Some((tree, pieces)))
    }

    /// Behind the condition of an `if`.
    pub fn if_behind<'a>(
        &self,
        at: Position,
        test: Rounded<JExpr>,
        pieces: Pieces<'a>,
    ) -> Answer<'a, Boxed<JStatement>>
        requires nests { Nests self.now.depth self.now.steps (F.pre self.now.read) (F.post self.now.read) }
        requires size { length pieces.now < 2 ^ 32 }
        ensures { Gives found (Shorter pieces.now) (if_behind (r.readers self.now.steps) self.now.depth at (rounded test) (shown pieces.now)) result }
    {
        match self.sole(pieces) {
            Ok(Some((then, rest))) => self.if_end(at, test, then, rest),
            Ok(None) => {
                let_go(test);
                Ok(None)
            }
            Err(error) => {
                let_go(test);
                Err(error)
            }
        }
    }

    /// Behind the condition of a `while`.
    pub fn while_behind<'a>(
        &self,
        at: Position,
        test: Rounded<JExpr>,
        pieces: Pieces<'a>,
    ) -> Answer<'a, Boxed<JStatement>>
        requires nests { Nests self.now.depth self.now.steps (F.pre self.now.read) (F.post self.now.read) }
        requires size { length pieces.now < 2 ^ 32 }
        ensures { Gives found (Shorter pieces.now) (while_behind (r.readers self.now.steps) self.now.depth at (rounded test) (shown pieces.now)) result }
    {
        match self.sole(pieces) {
            Ok(Some((body, rest))) => {
                let (opens, head, bodies, closes) = test;
                let head = head.into_inner();
                let tree = JStatement::While(at, opens, head, bodies, closes, body);
                Ok(Some((Boxed::new(self.alloc, tree)?, rest)))
            }
            Ok(None) => {
                let_go(test);
                Ok(None)
            }
            Err(error) => {
                let_go(test);
                Err(error)
            }
        }
    }

    /// Behind what stands in the parentheses of a `for`.
    pub fn loop_behind<'a>(
        &self,
        at: Position,
        turns: Rounded<JForHead>,
        pieces: Pieces<'a>,
    ) -> Answer<'a, Boxed<JStatement>>
        requires nests { Nests self.now.depth self.now.steps (F.pre self.now.read) (F.post self.now.read) }
        requires size { length pieces.now < 2 ^ 32 }
        ensures { Gives found (Shorter pieces.now) (loop_behind (r.readers self.now.steps) self.now.depth at (rounded turns) (shown pieces.now)) result }
    {
        match self.sole(pieces) {
            Ok(Some((body, rest))) => {
                let (opens, head, bodies, closes) = turns;
                let head = head.into_inner();
                let tree = JStatement::For(at, opens, head, bodies, closes, body);
                Ok(Some((Boxed::new(self.alloc, tree)?, rest)))
            }
            Ok(None) => {
                let_go(turns);
                Ok(None)
            }
            Err(error) => {
                let_go(turns);
                Err(error)
            }
        }
    }

    /// Behind a lock.
    pub fn lock_behind<'a>(
        &self,
        at: Position,
        lock: Rounded<JLock>,
        pieces: Pieces<'a>,
    ) -> Answer<'a, Boxed<JStatement>>
        requires nests { Nests self.now.depth self.now.steps (F.pre self.now.read) (F.post self.now.read) }
        requires size { length pieces.now < 2 ^ 32 }
        ensures { Gives found (Shorter pieces.now) (lock_behind (r.readers self.now.steps) self.now.depth at (rounded lock) (shown pieces.now)) result }
    {
        match self.block(pieces, self.depth) {
            Ok(Some((block, rest))) => {
                let (left, items, right) = block;
                let (opens, head, bodies, closes) = lock;
                let head = head.into_inner();
                let tree = JStatement::Synchronized(
                    at, opens, head, bodies, closes, left, items, right,
                );
                Ok(Some((Boxed::new(self.alloc, tree)?, rest)))
            }
            Ok(None) => {
                let_go(lock);
                Ok(None)
            }
            Err(error) => {
                let_go(lock);
                Err(error)
            }
        }
    }
}
