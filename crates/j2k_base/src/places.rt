// Where a fault stands, and which it is.
ghost use Rattle.std.specs.Prelude.{◌≡◌};
ghost use Rattle.j2k_base.specs.declared.places.Stop.TheVariants.{Memory};

use crate::{NoMemory, Text};
use std::alloc::{AllocError, AllocFailed};
use thiserror::Error;

/// A place in a file: its path, the byte from 0, the line and the column from 1.
/// Lines end at LF, CR or CR LF, and a column counts the bytes of the raw file.
#[derive(Debug, Drop)]
pub struct Place {
    pub path: Text,
    pub offset: u32,
    pub line: u32,
    pub column: u32,
}

/// The phases in their order: a fault of an earlier one comes first. The last three are those of Kotlin files.
#[derive(Clone, Copy, Debug, PartialEq, Eq)]
pub enum Phase {
    /// The settings file.
    Settings,
    /// Tokens.
    L,
    /// Spelling.
    S,
    /// Names.
    N,
    /// Types.
    T,
    /// Definite assignment and reachability.
    F,
    /// The profile's rules.
    P,
    /// What must not be null.
    U,
    /// Kotlin tokens.
    KL,
    /// Kotlin spelling.
    KS,
    /// Kotlin names and types.
    K,
}

/// A fault: a code is its phase and a number, as N0.
#[derive(Debug, Drop)]
pub struct Fault {
    pub phase: Phase,
    pub number: u8,
    pub place: Place,
}

/// Why a part of the work stopped.
#[derive(Debug, Drop, Error)]
pub enum Stop {
    #[error("out of memory")]
    Memory,
    #[error("a fault of the input")]
    Fault(Fault),
}

impl From<NoMemory> for Stop {
    ghost from_gives = { λ _ e. e ≡ Memory };

    fn from(_: NoMemory) -> Stop {
        Stop::Memory
    }
}

impl From<AllocError> for Stop {
    ghost from_gives = { λ _ e. e ≡ Memory };

    fn from(_: AllocError) -> Stop {
        Stop::Memory
    }
}

impl<T: Drop> From<AllocFailed<T>> for Stop {
    ghost from_gives = { λ _ e. e ≡ Memory };

    fn from(_: AllocFailed<T>) -> Stop {
        Stop::Memory
    }
}
