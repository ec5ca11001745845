//! Ranges of ordered view paths, and unions, meets and differences of two of them, one object at a time. This project's own.
#![tactic(auto)]

mod fault;
mod filling;
mod laws;
mod merge;
mod op;
mod ordered;
mod places;
mod ranges;
mod region_layers;
mod rows;
mod seeking;
mod side;
mod turn;

pub use fault::AlgebraFault;
pub use laws::{operation_is_answered, places_come_once, range_is_answered};
pub use merge::Merge;
pub use op::Op;
pub use ordered::Ordered;
pub use ranges::{range_first, range_next};
pub use region_layers::RegionLayers;
pub use seeking::{copied, sought};
pub use side::Side;
