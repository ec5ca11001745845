mod block;
mod first;
mod next;
mod tally;

pub(crate) use block::block_in;
pub(crate) use next::next_in;
pub(crate) use tally::{count_cells, tally_behind, tally_blocks};
