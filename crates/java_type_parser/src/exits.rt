//! How a reader ends while something owned is live.

/// Lets the value go: by a call, which a proof takes as one step, where a drop in place is opened to its last field.
pub fn let_go<T: Drop>(_value: T) {}

/// What was found. Where nothing was, or memory ran out, the reader lets the values go and answers so.
#[macro_export]
macro_rules! found_or_let_go {
    ($read:expr, $($value:ident),+) => {
        match $read {
            Ok(Some(found)) => found,
            Ok(None) => {
                $($crate::let_go($value);)+
                return Ok(None);
            }
            Err(error) => {
                $($crate::let_go($value);)+
                return Err(error);
            }
        }
    };
}
