// Calls that fail by a list.
use j2k_base::Series;

/// A call that fails: its number, from 1, and how many bytes a failing write or put leaves.
#[derive(Clone, Copy, Debug, PartialEq, Eq)]
pub struct Fail {
    pub call: u32,
    pub keep: u32,
}

/// The calls that fail. Of two entries for one call the first counts.
pub type Fails = Series<Fail>;
