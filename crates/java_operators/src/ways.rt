// How operators work.

use j2k_base::Kind;

/// How a binary operator works on its operands.
#[derive(Clone, Copy)]
pub enum Way {
    /// Both have this type, and so has the result (JLS 15.17, 15.18.2, 15.22.1).
    Arithmetic(Kind),
    /// Each has its own promoted type; the result has the left one's (JLS 15.19).
    Shift(Kind, Kind),
    /// Both have this type, and the result is a truth value (JLS 15.20.1, 15.21.1).
    Comparison(Kind),
    /// All are truth values (JLS 15.21.2, 15.22.2, 15.23, 15.24).
    Logical,
    /// A String is made of both (JLS 15.18.1).
    Concat,
    /// Two references are compared (JLS 15.21.3).
    Same,
}
