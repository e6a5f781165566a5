// The limits on a project's files.
ghost use Rattle.std.specs.Prelude.{◌≡◌, IfOk};

use j2k_base::{NoMemory, Text};
use std::alloc::Global;

/// The Java files that a project may have.
pub const MAX_FILES: u64 = 2_000;

/// The bytes that a Java file may have.
pub const MAX_FILE_BYTES: u64 = 1_048_576;

/// The bytes that all Java files may have.
pub const MAX_TOTAL_BYTES: u64 = 16_777_216;

/// The bytes that the settings may have.
pub const MAX_SETTINGS_BYTES: u64 = 65_536;

// What is too large, where it is no file.

pub const FILES: &str = "files";

pub const TOTAL: &str = "total";

/// A limit that is exceeded: a path, `files` or `total`, and the number.
#[derive(Debug, Drop)]
pub struct Excess {
    pub what: Text,
    pub limit: u64,
}

pub fn excess_of(alloc: Global, what: &str, limit: u64) -> Result<Excess, NoMemory>
    ensures { IfOk result (λ excess. excess ≡ record { what = what.now; limit = limit }) }
{
    let what = Text::from_str(alloc, what)?;
    Ok(Excess { what, limit })
}
