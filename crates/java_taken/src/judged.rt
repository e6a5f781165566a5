// What a part of a unit is judged to be.

ghost use Rattle.std.specs.Prelude.{◌≡◌};
ghost use Rattle.java_taken.specs.declared.judged.Refusal.TheVariants.{Memory};

use j2k_base::NoMemory;
use java_tree::Position;
use java_typed::TUnit;
use sqlite_items::Boxed;
use std::alloc::{AllocError, AllocFailed};

/// What a unit is judged to be: its first open form stands at the position, or it is taken.
#[derive(Drop)]
pub enum Judged {
    Open(Position),
    Typed(Boxed<TUnit>),
}

/// Why a part has no typed tree: memory runs out, or its first open form stands at the position.
#[derive(Drop)]
pub(crate) enum Refusal {
    Memory,
    Open(Position),
}

impl From<NoMemory> for Refusal {
    ghost from_gives = { λ _ e. e ≡ Memory };

    fn from(_: NoMemory) -> Refusal {
        Refusal::Memory
    }
}

impl From<AllocError> for Refusal {
    ghost from_gives = { λ _ e. e ≡ Memory };

    fn from(_: AllocError) -> Refusal {
        Refusal::Memory
    }
}

impl<T: Drop> From<AllocFailed<T>> for Refusal {
    ghost from_gives = { λ _ e. e ≡ Memory };

    fn from(_: AllocFailed<T>) -> Refusal {
        Refusal::Memory
    }
}
