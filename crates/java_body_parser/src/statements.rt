//! Statements (JLS 14).

ghost use Rattle.std.specs.Prelude.{◌≡◌, ◌≤◌, ◌<◌, ◌+◌, ◌^◌, ◌∷◌, length};
ghost use Rattle.java_tree.specs.Seen.{Token};
ghost use Rattle.java_unit_grammar.specs.Reading as r;
ghost use Rattle.java_token_cursor.specs.Shown.{shown};
ghost use Rattle.java_type_parser.specs.Gives.{Gives};
ghost use Rattle.java_modifier_rules.specs.Fits.{role_seen};
ghost use Rattle.java_block_parser.specs.Asks.{Nests, Shorter, found, rounded_found};
ghost use Rattle.java_block_parser.specs.Statements.{do_behind};

use crate::kinds::{Condition, Lock, Simple, Turns};
use crate::rules::Rules;
use j2k_base::Name;
use java_block_parser::{Answer, Ask, Part, Rounded, colon, do_end, simple_end, while_word};
use java_body_cuts::Stop;
use java_modifier_rules::Role;
use java_token_cursor::{Head, Pieces, copied, first};
use java_tree::{JExpr, Keyword, Mark, Position};
use java_type_parser::let_go;
use java_unit_grammar::JStatement;
use sqlite_items::Boxed;
use std::alloc::Global;

impl<F: for<'a, 'b> Fn(Global, Pieces<'a>, Ask<'b>, usize, usize) -> Answer<'a, Part>> Rules<F> {
    /// A condition in parentheses.
    fn condition<'a>(&self, pieces: Pieces<'a>) -> Answer<'a, Rounded<JExpr>>
        requires nests { Nests self.now.parts.depth self.now.parts.steps (F.pre self.now.parts.read) (F.post self.now.parts.read) }
        requires size { length pieces.now < 2 ^ 32 }
        ensures { Gives rounded_found (Shorter pieces.now) (r.condition (r.readers self.now.parts.steps) self.now.parts.depth (shown pieces.now)) result }
    {
        self.rounded(Condition(self.parts.depth), pieces)
    }

    /// A simple statement and its `;`.
    #[tactic(auto, unfolding(java_unit_grammar::specs::Reading::simple))]
    fn simple<'a>(&self, role: Role, pieces: Pieces<'a>) -> Answer<'a, Boxed<JStatement>>
        requires nests { Nests self.now.parts.depth self.now.parts.steps (F.pre self.now.parts.read) (F.post self.now.parts.read) }
        requires size { length pieces.now < 2 ^ 32 }
        ensures { Gives found (Shorter pieces.now) (r.simple (r.readers self.now.parts.steps) self.now.parts.depth (role_seen role) (shown pieces.now)) result }
    {
        match self.head(
            Simple(self.parts.depth),
            Stop::Semicolon,
            pieces,
            self.parts.depth,
        ) {
            Ok(Some((headed, rest))) => simple_end(self.parts.alloc, role, headed, rest),
            Ok(None) => Ok(None),
            Err(error) => Err(error),
        }
    }

    /// Behind `if`.
    #[tactic(auto, unfolding(java_unit_grammar::specs::Reading::if_read))]
    fn if_read<'a>(&self, at: Position, pieces: Pieces<'a>) -> Answer<'a, Boxed<JStatement>>
        requires nests { Nests self.now.parts.depth self.now.parts.steps (F.pre self.now.parts.read) (F.post self.now.parts.read) }
        requires size { length pieces.now < 2 ^ 32 }
        ensures { Gives found (Shorter pieces.now) (r.if_read (r.readers self.now.parts.steps) self.now.parts.depth at (shown pieces.now)) result }
    {
        match self.condition(pieces) {
            Ok(Some((test, rest))) => self.parts.if_behind(at, test, rest),
            Ok(None) => Ok(None),
            Err(error) => Err(error),
        }
    }

    /// Behind `while`.
    #[tactic(auto, unfolding(java_unit_grammar::specs::Reading::while_read))]
    fn while_read<'a>(&self, at: Position, pieces: Pieces<'a>) -> Answer<'a, Boxed<JStatement>>
        requires nests { Nests self.now.parts.depth self.now.parts.steps (F.pre self.now.parts.read) (F.post self.now.parts.read) }
        requires size { length pieces.now < 2 ^ 32 }
        ensures { Gives found (Shorter pieces.now) (r.while_read (r.readers self.now.parts.steps) self.now.parts.depth at (shown pieces.now)) result }
    {
        match self.condition(pieces) {
            Ok(Some((test, rest))) => self.parts.while_behind(at, test, rest),
            Ok(None) => Ok(None),
            Err(error) => Err(error),
        }
    }

    /// Behind `do`.
    #[tactic(auto, unfolding(java_unit_grammar::specs::Reading::do_read))]
    fn do_read<'a>(&self, at: Position, pieces: Pieces<'a>) -> Answer<'a, Boxed<JStatement>>
        requires nests { Nests self.now.parts.depth self.now.parts.steps (F.pre self.now.parts.read) (F.post self.now.parts.read) }
        requires size { length pieces.now < 2 ^ 32 }
        ensures { Gives found (Shorter pieces.now) (r.do_read (r.readers self.now.parts.steps) self.now.parts.depth at (shown pieces.now)) result }
    {
        match self.parts.sole(pieces) {
            Ok(Some((body, rest))) => self.do_behind(at, body, rest),
            Ok(None) => Ok(None),
            Err(error) => Err(error),
        }
    }

    /// Behind the statement of a `do`.
    fn do_behind<'a>(
        &self,
        at: Position,
        body: Boxed<JStatement>,
        pieces: Pieces<'a>,
    ) -> Answer<'a, Boxed<JStatement>>
        requires nests { Nests self.now.parts.depth self.now.parts.steps (F.pre self.now.parts.read) (F.post self.now.parts.read) }
        requires size { length pieces.now < 2 ^ 32 }
        ensures { Gives found (Shorter pieces.now) (do_behind (r.readers self.now.parts.steps) self.now.parts.depth at body (shown pieces.now)) result }
    {
        let Some((again, rest)) = while_word(pieces) else {
            let_go(body);
            return Ok(None);
        };
        match self.condition(rest) {
            Ok(Some((test, rest))) => do_end(self.parts.alloc, at, (body, again), test, rest),
            Ok(None) => {
                let_go(body);
                Ok(None)
            }
            Err(error) => {
                let_go(body);
                Err(error)
            }
        }
    }

    /// Behind `for`.
    #[tactic(auto, unfolding(java_unit_grammar::specs::Reading::loop_read))]
    fn loop_read<'a>(&self, at: Position, pieces: Pieces<'a>) -> Answer<'a, Boxed<JStatement>>
        requires nests { Nests self.now.parts.depth self.now.parts.steps (F.pre self.now.parts.read) (F.post self.now.parts.read) }
        requires size { length pieces.now < 2 ^ 32 }
        ensures { Gives found (Shorter pieces.now) (r.loop_read (r.readers self.now.parts.steps) self.now.parts.depth at (shown pieces.now)) result }
    {
        match self.rounded(Turns(self.parts.depth), pieces) {
            Ok(Some((turns, rest))) => self.parts.loop_behind(at, turns, rest),
            Ok(None) => Ok(None),
            Err(error) => Err(error),
        }
    }

    /// Behind `synchronized`.
    #[tactic(auto, unfolding(java_unit_grammar::specs::Reading::synchronized))]
    fn synchronized<'a>(&self, at: Position, pieces: Pieces<'a>) -> Answer<'a, Boxed<JStatement>>
        requires nests { Nests self.now.parts.depth self.now.parts.steps (F.pre self.now.parts.read) (F.post self.now.parts.read) }
        requires size { length pieces.now < 2 ^ 32 }
        ensures { Gives found (Shorter pieces.now) (r.synchronized (r.readers self.now.parts.steps) self.now.parts.depth at (shown pieces.now)) result }
    {
        match self.rounded(Lock(self.parts.depth), pieces) {
            Ok(Some((lock, rest))) => self.parts.lock_behind(at, lock, rest),
            Ok(None) => Ok(None),
            Err(error) => Err(error),
        }
    }

    /// A statement that begins with a word.
    fn worded<'a>(
        &self,
        role: Role,
        word: Keyword,
        at: Position,
        pieces: Pieces<'a>,
        rest: Pieces<'a>,
    ) -> Answer<'a, Boxed<JStatement>>
        requires nests { Nests self.now.parts.depth self.now.parts.steps (F.pre self.now.parts.read) (F.post self.now.parts.read) }
        requires size { length pieces.now < 2 ^ 32 }
        requires same { shown pieces.now ≡ Token.Word word at ∷ shown rest.now }
        requires within { length rest.now ≤ length pieces.now }
        ensures { Gives found (Shorter pieces.now) (r.worded (r.readers self.now.parts.steps) self.now.parts.depth (role_seen role) word at (shown rest.now)) result }
    {
        match word {
            Keyword::If => self.if_read(at, rest),
            Keyword::While => self.while_read(at, rest),
            Keyword::Do => self.do_read(at, rest),
            Keyword::For => self.loop_read(at, rest),
            Keyword::Switch => self.switch_statement(at, rest),
            Keyword::Synchronized => self.synchronized(at, rest),
            Keyword::Try => self.parts.try_read(at, rest),
            _ => self.simple(role, pieces),
        }
    }

    /// A statement that begins with a name.
    #[tactic(auto, using(crate::proofs::Steps::names))]
    fn named<'a>(
        &self,
        role: Role,
        name: &Name,
        at: Position,
        pieces: Pieces<'a>,
        rest: Pieces<'a>,
    ) -> Answer<'a, Boxed<JStatement>>
        requires nests { Nests self.now.parts.depth self.now.parts.steps (F.pre self.now.parts.read) (F.post self.now.parts.read) }
        requires size { length pieces.now < 2 ^ 32 }
        requires same { shown pieces.now ≡ Token.Id name.now at ∷ shown rest.now }
        requires within { length rest.now ≤ length pieces.now }
        ensures { Gives found (Shorter pieces.now) (r.statement_step (r.readers self.now.parts.steps) self.now.parts.depth (role_seen role) (shown pieces.now)) result }
    {
        if let Some((colon, rest)) = colon(rest) {
            let name = copied(self.parts.alloc, name)?;
            return self.parts.labeled(name, at, colon, rest);
        }
        self.simple(role, pieces)
    }

    /// A statement, and the pieces after it.
    #[tactic(auto, using(crate::proofs::Steps::names))]
    pub fn statement_step<'a>(
        &self,
        role: Role,
        pieces: Pieces<'a>,
    ) -> Answer<'a, Boxed<JStatement>>
        requires nests { Nests self.now.parts.depth self.now.parts.steps (F.pre self.now.parts.read) (F.post self.now.parts.read) }
        requires size { length pieces.now < 2 ^ 32 }
        ensures { Gives found (Shorter pieces.now) (r.statement_step (r.readers self.now.parts.steps) self.now.parts.depth (role_seen role) (shown pieces.now)) result }
    {
        match first(pieces) {
            Head::Mark(Mark::OpenCurly, _, _) => self.parts.block_statement(pieces),
            Head::Word(word, at, rest) => self.worded(role, word, at, pieces, rest),
            Head::Id(name, at, rest) => self.named(role, name, at, pieces, rest),
            _ => self.simple(role, pieces),
        }
    }

    /// Behind `switch`.
    #[tactic(auto, unfolding(java_unit_grammar::specs::Reading::switch_statement))]
    pub fn switch_statement<'a>(
        &self,
        at: Position,
        pieces: Pieces<'a>,
    ) -> Answer<'a, Boxed<JStatement>>
        requires nests { Nests self.now.parts.depth self.now.parts.steps (F.pre self.now.parts.read) (F.post self.now.parts.read) }
        requires size { length pieces.now < 2 ^ 32 }
        ensures { Gives found (Shorter pieces.now) (r.switch_statement (r.readers self.now.parts.steps) self.now.parts.depth at (shown pieces.now)) result }
    {
        match self.condition(pieces) {
            Ok(Some((subject, rest))) => self.parts.switch_behind(at, subject, rest),
            Ok(None) => Ok(None),
            Err(error) => Err(error),
        }
    }
}
