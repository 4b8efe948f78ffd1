// Prefix bytecode: which expressions of a stream are made into forms, found once before it is evaluated. Document 02, §1; 000, section 3.1.7.
#![tactic(auto)]

// Kept: stream and table are no struct, as C lends both and the functions of `rows`, called most, take the one or both: it would be taken apart there.

mod arities;
mod around;
mod flat;
mod heights;
mod numbers;
mod present;
mod scan;
mod tree;

pub use crate::numbers::clear;
pub use crate::present::is_present;
pub use crate::scan::transform;
