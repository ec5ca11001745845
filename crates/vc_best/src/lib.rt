//! A memory region by exact best fit over the segments of a discipline.
#![tactic(auto, unfolding(crate::specs::Blocks::layout_by))]

mod best;
mod block;
mod carve;
mod cell_rows;
mod cells;
mod compact;
mod lend;
mod over;
mod release;
mod resize;
mod stat;
mod stay;
mod take;
mod tree;
mod walk;

pub use best::Best;
pub use cell_rows::one_cell;
