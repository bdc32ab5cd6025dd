// What C hands over and is handed: shapes and maps from slices, answers as numbers, and figures that are written only where a
// call is accepted. `capi` exports the functions over these.
#![tactic(auto)]

mod calls;
mod fit;
mod inputs;
mod lent;
mod outputs;

pub use calls::{check, gradient, value_at};
pub use fit::from_values;
pub use inputs::shape_of;
pub use lent::RegularFromC;
pub use outputs::{number, put};
