//! How deep what an action of the Kotlin grammar builds is, and that it is no deeper than is read.
#![tactic(auto)]

ghost use Rattle.std.specs.Prelude.{◌≡◌, IfOk, max};
ghost use Rattle.kotlin_grammar.specs.Depth.{levels as levels_of, levels_by as levels_by_of, last_depth, deepest as deepest_of};
ghost use Rattle.kotlin_depths.specs.Measures.{Gives, Leveled, Measures};

use grammar::Stack;
use j2k_base::NoMemory;
use kotlin_grammar::{Act, Built, Level, Levels, Parts};

/// The levels of the deepest tree that is read (a limit of this project).
const MAX_DEPTH: usize = 1600;

fn levels_by(parts: Parts, under: Parts, level: Level) -> Levels
    ensures { result ≡ levels_by_of parts under level }
{
    Levels {
        parts,
        under,
        level,
    }
}

/// Of which parts the depth counts, and what is made of it.
#[tactic(auto, unfolding(kotlin_grammar::specs::Depth::levels))]
pub fn levels(act: Act) -> Levels
    ensures { result ≡ levels_of act }
{
    match act {
        Act::AddCalledSuper => levels_by(Parts::Zero, Parts::One, Level::Gone),
        Act::AddSuper => levels_by(Parts::Zero, Parts::One, Level::Gone),
        Act::Typed => levels_by(Parts::Zero, Parts::One, Level::Gone),
        Act::Init => levels_by(Parts::Zero, Parts::One, Level::Gone),
        Act::Property => levels_by(Parts::Zero, Parts::One, Level::Gone),
        Act::Constructor => levels_by(Parts::Zero, Parts::One, Level::Gone),
        Act::Value => levels_by(Parts::Zero, Parts::One, Level::Gone),
        Act::AddParam => levels_by(Parts::Zero, Parts::One, Level::Gone),
        Act::Body => levels_by(Parts::Zero, Parts::One, Level::Gone),
        Act::Delegation => levels_by(Parts::Zero, Parts::One, Level::Gone),
        Act::NoStatements => levels_by(Parts::Zero, Parts::Zero, Level::Same),
        Act::Block => levels_by(Parts::One, Parts::Zero, Level::Deeper),
        Act::AddStatement => levels_by(Parts::Two, Parts::Zero, Level::Same),
        Act::Break => levels_by(Parts::Zero, Parts::Zero, Level::Deeper),
        Act::Continue => levels_by(Parts::Zero, Parts::Zero, Level::Deeper),
        Act::Throw => levels_by(Parts::One, Parts::Zero, Level::Deeper),
        Act::NoCatches => levels_by(Parts::Zero, Parts::Zero, Level::Same),
        Act::Synchronized => levels_by(Parts::Two, Parts::Zero, Level::Deeper),
        Act::Prefix => levels_by(Parts::One, Parts::Zero, Level::Deeper),
        Act::Local => levels_by(Parts::Two, Parts::Zero, Level::Deeper),
        Act::Unset => levels_by(Parts::One, Parts::Zero, Level::Deeper),
        Act::While => levels_by(Parts::Two, Parts::Zero, Level::Deeper),
        Act::DoWhile => levels_by(Parts::Two, Parts::Zero, Level::Deeper),
        Act::ForRange => levels_by(Parts::Three, Parts::Zero, Level::Deeper),
        Act::For => levels_by(Parts::Two, Parts::Zero, Level::Deeper),
        Act::IfValue => levels_by(Parts::Three, Parts::Zero, Level::Deeper),
        Act::Expression => levels_by(Parts::One, Parts::Zero, Level::Deeper),
        Act::If => levels_by(Parts::Two, Parts::Zero, Level::Deeper),
        Act::IfElse => levels_by(Parts::Three, Parts::Zero, Level::Deeper),
        Act::IfElseIf => levels_by(Parts::Three, Parts::Zero, Level::Deeper),
        Act::Branch => levels_by(Parts::Two, Parts::Zero, Level::Deeper),
        Act::NoBranches => levels_by(Parts::Zero, Parts::Zero, Level::Same),
        Act::AddBranch => levels_by(Parts::Two, Parts::Zero, Level::Same),
        Act::WhenBranches => levels_by(Parts::Three, Parts::Zero, Level::Deeper),
        Act::Choice => levels_by(Parts::Two, Parts::Zero, Level::Deeper),
        Act::NoChoices => levels_by(Parts::Zero, Parts::Zero, Level::Same),
        Act::AddChoice => levels_by(Parts::Two, Parts::Zero, Level::Same),
        Act::WhenChoices => levels_by(Parts::Three, Parts::Zero, Level::Deeper),
        Act::NoExprs => levels_by(Parts::Zero, Parts::Zero, Level::Same),
        Act::AddExpr => levels_by(Parts::Two, Parts::Zero, Level::Same),
        Act::Give => levels_by(Parts::One, Parts::Zero, Level::Deeper),
        Act::Return => levels_by(Parts::Zero, Parts::Zero, Level::Deeper),
        Act::Catch => levels_by(Parts::Two, Parts::Zero, Level::Deeper),
        Act::AddCatch => levels_by(Parts::Two, Parts::Zero, Level::Same),
        Act::TryFinally => levels_by(Parts::Three, Parts::Zero, Level::Deeper),
        Act::Try => levels_by(Parts::Two, Parts::Zero, Level::Deeper),
        Act::Assign => levels_by(Parts::Two, Parts::Zero, Level::Deeper),
        Act::Binary => levels_by(Parts::Two, Parts::Zero, Level::Deeper),
        Act::Is => levels_by(Parts::Two, Parts::Zero, Level::Deeper),
        Act::As => levels_by(Parts::Two, Parts::Zero, Level::Deeper),
        Act::Literal => levels_by(Parts::Zero, Parts::Zero, Level::Deeper),
        Act::This => levels_by(Parts::Zero, Parts::Zero, Level::Deeper),
        Act::SuperCall => levels_by(Parts::One, Parts::Zero, Level::Deeper),
        Act::Paren => levels_by(Parts::One, Parts::Zero, Level::Deeper),
        Act::Run => levels_by(Parts::One, Parts::Zero, Level::Deeper),
        Act::Call => levels_by(Parts::One, Parts::Zero, Level::Deeper),
        Act::Name => levels_by(Parts::Zero, Parts::Zero, Level::Deeper),
        Act::GenericCall => levels_by(Parts::Two, Parts::Zero, Level::Deeper),
        Act::Applied => levels_by(Parts::One, Parts::Zero, Level::Deeper),
        Act::Element => levels_by(Parts::Two, Parts::Zero, Level::Deeper),
        Act::Postfix => levels_by(Parts::One, Parts::Zero, Level::Deeper),
        Act::Face => levels_by(Parts::Zero, Parts::One, Level::Deeper),
        Act::Lambda => levels_by(Parts::Two, Parts::Zero, Level::Deeper),
        Act::ClassOf => levels_by(Parts::Zero, Parts::One, Level::Deeper),
        Act::Method => levels_by(Parts::Two, Parts::Zero, Level::Deeper),
        Act::Field => levels_by(Parts::One, Parts::Zero, Level::Deeper),
        Act::GenericMethod => levels_by(Parts::Three, Parts::Zero, Level::Deeper),
        Act::DottedApplied => levels_by(Parts::One, Parts::One, Level::Deeper),
        Act::AppliedType => levels_by(Parts::One, Parts::Zero, Level::Deeper),
        Act::PlainType => levels_by(Parts::Zero, Parts::Zero, Level::Deeper),
        Act::NoTypes => levels_by(Parts::Zero, Parts::Zero, Level::Same),
        Act::AddType => levels_by(Parts::Two, Parts::Zero, Level::Same),
        Act::TypeArguments => levels_by(Parts::One, Parts::Zero, Level::Same),
        _ => levels_by(Parts::Zero, Parts::Zero, Level::Gone),
    }
}

fn larger(first: usize, second: usize) -> usize
    ensures { result ≡ max first second }
{
    if first < second { second } else { first }
}

fn last(depths: &mut Stack<usize>) -> Option<usize>
    ensures { Gives last_depth depths.old depths.new result }
{
    depths.pop()
}

/// The depth of the deepest of so many.
#[tactic(auto, unfolding(kotlin_grammar::specs::Depth::deepest))]
fn deepest(depths: &mut Stack<usize>, parts: Parts) -> Option<usize>
    ensures { Gives (deepest_of parts) depths.old depths.new result }
{
    match parts {
        Parts::Zero => Some(0),
        Parts::One => last(depths),
        Parts::Two => {
            let first = last(depths)?;
            let second = last(depths)?;
            Some(larger(first, second))
        }
        Parts::Three => {
            let first = last(depths)?;
            let second = last(depths)?;
            let third = last(depths)?;
            Some(larger(larger(first, second), third))
        }
    }
}

fn push_level(depths: &mut Stack<usize>, level: Level, depth: usize) -> Result<bool, NoMemory>
    ensures { IfOk result (Leveled level depth depths.old depths.new) }
{
    match level {
        Level::Same => {
            depths.push(depth)?;
            Ok(true)
        }
        Level::Deeper => {
            if depth < MAX_DEPTH {
                depths.push(depth + 1)?;
                Ok(true)
            } else {
                Ok(false)
            }
        }
        Level::Gone => Ok(true),
    }
}

/// Measures, and answers whether no deeper tree than is read is made.
pub fn measure(built: &mut Built, levels: Levels) -> Result<bool, NoMemory>
    ensures { IfOk result (Measures levels built.old built.new) }
{
    let depth = match deepest(&mut built.depths, levels.parts) {
        Some(depth) => depth,
        None => return Ok(false),
    };
    match deepest(&mut built.depths, levels.under) {
        Some(_) => push_level(&mut built.depths, levels.level, depth),
        None => Ok(false),
    }
}
