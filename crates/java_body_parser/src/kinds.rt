//! The kinds of heads in whose expressions bodies stand.

ghost use Rattle.std.specs.Prelude.{◌≡◌, ℕ, Option, IfOk};
ghost use Rattle.java_tree.specs.Seen.{Tokens};
ghost use Rattle.java_statement_grammar.specs.Reading as h;
ghost use Rattle.java_member_grammar.specs.Reading as m;
ghost use Rattle.java_unit_grammar.specs.Levels as l;
ghost use Rattle.java_unit_grammar.specs.Reading as r;
ghost use Rattle.java_token_cursor.specs.Shown.{shown};
ghost use Rattle.java_body_parser.specs.Heads.{condition_read};
ghost use Rattle.java_body_parser.specs.Members.{levels_of};

use crate::rules::Depths;
use j2k_base::NoMemory;
use java_body_cuts::is_end;
use java_exprs::read;
use java_member_grammar::JMemberHead;
use java_member_parser::before_semicolon;
use java_statement_grammar::{JForHead, JLock, JSimple};
use java_statement_parser::{for_head, lock, simple};
use java_token_cursor::Pieces;
use java_tree::JExpr;
use java_type_parser::let_go;
use sqlite_items::Boxed;
use std::alloc::Global;

/// A kind of heads.
pub trait Kind: Copy {
    type Head: Drop;

    // the head that all of the tokens are
    ghost reading: { Self → Tokens → Option Self.Head };

    // how deep each body in it stands
    ghost levels: { Self → Self.Head → l.Levels };

    /// The head that all of the pieces are.
    fn read<'a>(
        self,
        alloc: Global,
        pieces: Pieces<'a>,
    ) -> Result<Option<Boxed<Self::Head>>, NoMemory>
        ensures { IfOk result (λ x. x ≡ reading self (shown pieces.now)) };

    /// How deep each body in it stands.
    fn depths(self, alloc: Global, head: &Self::Head) -> Result<Vec<usize>, NoMemory>
        ensures { IfOk result (λ v. v.items ≡ levels self head.now) };
}

/// What stands before a `;`, with parts no deeper than the number.
#[derive(Clone, Copy)]
pub struct Simple(pub usize);

impl Kind for Simple {
    type Head = JSimple;

    ghost reading = { λ s. h.simple_read s.0 };

    ghost levels = { λ s. l.simple_levels };

    fn read<'a>(
        self,
        alloc: Global,
        pieces: Pieces<'a>,
    ) -> Result<Option<Boxed<JSimple>>, NoMemory> {
        match simple(alloc, pieces, self.0)? {
            Some(head) => Ok(Some(Boxed::new(alloc, head)?)),
            None => Ok(None),
        }
    }

    fn depths(self, alloc: Global, head: &JSimple) -> Result<Vec<usize>, NoMemory> {
        java_body_depths::simple(alloc, head)
    }
}

/// What stands in the parentheses of a `for`, with parts no deeper than the number.
#[derive(Clone, Copy)]
pub struct Turns(pub usize);

impl Kind for Turns {
    type Head = JForHead;

    ghost reading = { λ s. h.for_read s.0 };

    ghost levels = { λ s. l.for_levels };

    fn read<'a>(
        self,
        alloc: Global,
        pieces: Pieces<'a>,
    ) -> Result<Option<Boxed<JForHead>>, NoMemory> {
        match for_head(alloc, pieces, self.0)? {
            Some(head) => Ok(Some(Boxed::new(alloc, head)?)),
            None => Ok(None),
        }
    }

    fn depths(self, alloc: Global, head: &JForHead) -> Result<Vec<usize>, NoMemory> {
        java_body_depths::for_head(alloc, head)
    }
}

/// A lock, no deeper than the number.
#[derive(Clone, Copy)]
pub struct Lock(pub usize);

impl Kind for Lock {
    type Head = JLock;

    ghost reading = { λ s. h.lock_read s.0 };

    ghost levels = { λ s. l.lock_levels };

    fn read<'a>(self, alloc: Global, pieces: Pieces<'a>) -> Result<Option<Boxed<JLock>>, NoMemory> {
        match lock(alloc, pieces, self.0)? {
            Some(head) => Ok(Some(Boxed::new(alloc, head)?)),
            None => Ok(None),
        }
    }

    fn depths(self, alloc: Global, head: &JLock) -> Result<Vec<usize>, NoMemory> {
        java_body_depths::lock(alloc, head)
    }
}

/// An expression, no deeper than the number.
#[derive(Clone, Copy)]
pub struct Condition(pub usize);

impl Kind for Condition {
    type Head = JExpr;

    ghost reading = { λ s. condition_read s.0 };

    ghost levels = { λ s. r.condition_levels };

    #[tactic(auto, using(java_declaration_parser::proofs::LawsToCite::wholes))]
    fn read<'a>(self, alloc: Global, pieces: Pieces<'a>) -> Result<Option<Boxed<JExpr>>, NoMemory> {
        match read(alloc, pieces, self.0, 1) {
            Ok(Some((found, rest))) if is_end(rest) => Ok(Some(found.tree)),
            Ok(Some((found, _))) => {
                let_go(found.tree);
                Ok(None)
            }
            Ok(None) => Ok(None),
            Err(error) => Err(error),
        }
    }

    fn depths(self, alloc: Global, head: &JExpr) -> Result<Vec<usize>, NoMemory> {
        java_body_depths::condition(alloc, head)
    }
}

/// What a member declares before its `;`.
impl Kind for Depths {
    type Head = JMemberHead;

    ghost reading = { λ s. m.before_semicolon s.types s.values };

    ghost levels = { λ s. levels_of s.is_top };

    fn read<'a>(
        self,
        alloc: Global,
        pieces: Pieces<'a>,
    ) -> Result<Option<Boxed<JMemberHead>>, NoMemory> {
        match before_semicolon(alloc, pieces, self.types, self.values)? {
            Some(head) => Ok(Some(Boxed::new(alloc, head)?)),
            None => Ok(None),
        }
    }

    fn depths(self, alloc: Global, head: &JMemberHead) -> Result<Vec<usize>, NoMemory> {
        if self.is_top {
            java_body_depths::top(alloc, head)
        } else {
            java_body_depths::member(alloc, head)
        }
    }
}
