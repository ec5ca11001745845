//! Memory regions that watch their blocks, over a best region: for damage around them, and for what each site uses.
#![tactic(auto)]

mod debug;
mod plain;
mod profile;
mod profile_example;

pub use debug::{Debug, debug_damage, debug_marks, debug_places, debug_resizing};
pub use profile::Profile;
pub use profile_example::{profile_refusals, profile_resizes, profile_sites};
pub use vc_seg::{ProfileRow, Stat};
