//! What regions, disciplines and streams mean: definitions in `specs/`, over lists and numbers, which the contracts
//! of every crate cite. The functions here have no code: each states rows of the definitions, which the check computes.
#![tactic(auto)]

mod growth_rows;
mod last_rows;
mod number_rows;
mod pool_rows;
mod rows;
mod walk_rows;

pub use growth_rows::{asking_to_grow, blocks_where_it_grows, extending, growing};
pub use last_rows::{last_blocks, last_compacting, last_resizing, last_segments};
pub use number_rows::{numbers_of_nine_blocks, numbers_of_nothing, numbers_of_one_block};
pub use pool_rows::{
    pool_cells, pool_compacting, pool_element, pool_freed, pool_numbers, pool_uncarved,
};
pub use rows::{
    aligned_places, asking, gaps_in_any_order, kept_bytes, merging, merging_by_free, resizing, tie,
    tie_by_free,
};
pub use walk_rows::{
    bytes_of_blocks, bytes_of_segments, compacting, walk_of_blocks, walk_of_segments,
};
