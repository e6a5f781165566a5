// Primitive types.

use j2k_base::Kind;

/// A primitive type (JLS 4.2).
#[derive(Clone, Copy)]
pub enum Simple {
    Boolean,
    Number(Kind),
}
