//! Types, parameters, what goes on after an operand, and what stands further on.
#![tactic(auto)]

mod ahead;
mod exits;
mod names;
mod params;
mod suffix;
mod types;

pub use ahead::{after_close, begins_arrow, begins_inferred, begins_names, begins_sign, is_cast};
pub use exits::let_go;
pub use names::{after_dotted, brackets, ident, inferred, onward, qualified};
pub use params::{ParamsFound, TypedsFound, some_params, typed_from};
pub use suffix::{is_least, level, next_suffix, prefix, strength, takes, top};
pub use types::{TypeFound, is_class, is_primitive, larger, primitive, read_base, read_type};
