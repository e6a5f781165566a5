//! Where runs stand, and what the forms that they spell change there.

ghost use Rattle.std.specs.Prelude.{◌≡◌, IfOk};
ghost use Rattle.java_fault_grammar.specs.Walk as w;
ghost use Rattle.java_fault_finder.specs.Walks.{after, inner, level, spot_seen, state_seen};

use j2k_base::{Name, NoMemory};
use std::alloc::Global;

/// Where a run stands.
#[derive(Clone, Copy, Debug, PartialEq, Eq)]
pub enum Spot {
    /// First in a file.
    Start,
    /// Behind lines of packages and imports alone.
    Lines,
    /// Elsewhere outside of types.
    Top,
    /// First in the body of an enum.
    Constants,
    /// Elsewhere in the body of a type.
    Member,
}

/// Whose body is open.
#[derive(Drop)]
pub enum Opened {
    /// A class or an enum with that name.
    Class(Name),
    Interface,
}

/// What a form does.
#[derive(Drop)]
pub enum Passed {
    /// It is the line of a package or an import.
    Line,
    /// It opens the body of a type, and whether that is an enum.
    Opens(Opened, bool),
    /// It is a member that is no type, or a `;` outside of types.
    Member,
    /// It is the constants of an enum.
    Constants,
    /// It is the `}` of a type's body.
    Ends,
}

/// Where the next run stands, and whose bodies are open there, the outermost first.
#[derive(Drop)]
pub struct State {
    pub spot: Spot,
    pub around: Vec<Opened>,
}

impl State {
    /// The start of a file.
    #[tactic(auto, using(crate::proofs::Passing::states))]
    pub fn start(alloc: Global) -> State
        ensures { state_seen result ≡ w.start }
    {
        State {
            spot: Spot::Start,
            around: Vec::new(alloc),
        }
    }

    /// Where members stand next.
    #[tactic(auto, using(crate::proofs::Passing::states))]
    fn level(&self) -> Spot
        ensures { spot_seen result ≡ level (state_seen self.now).around }
    {
        if self.around.is_empty() {
            Spot::Top
        } else {
            Spot::Member
        }
    }

    /// Goes past a form.
    #[tactic(auto, using(crate::proofs::Passing::states))]
    pub fn pass(&mut self, passed: Passed) -> Result<(), NoMemory>
        ensures { IfOk result (λ _. state_seen self.new ≡ after (state_seen self.old) passed) }
    {
        match passed {
            Passed::Line => self.spot = Spot::Lines,
            Passed::Opens(opened, is_enum) => {
                self.around.push(opened)?;
                self.spot = inner(is_enum);
            }
            Passed::Member => self.spot = self.level(),
            Passed::Constants => self.spot = Spot::Member,
            Passed::Ends => {
                self.around.pop();
                self.spot = self.level();
            }
        }
        Ok(())
    }
}

fn inner(is_enum: bool) -> Spot
    ensures { spot_seen result ≡ inner is_enum }
{
    if is_enum {
        Spot::Constants
    } else {
        Spot::Member
    }
}
