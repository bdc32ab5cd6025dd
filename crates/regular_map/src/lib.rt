// Regular maps: the record, building, values, gradients and batches, double precision. After interpn's
// multibspline::regular.
//
// The axis count, lengths, starts and steps, and the buffers of a fit, are parameters of interpn's functions, in its order.
#![tactic(auto)]

mod build;
mod lent;
mod place;
mod record;
mod single;

pub use build::{blank, check_map};
pub use record::MultiBsplineRegular;
