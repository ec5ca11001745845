//! Addresses, counters of steps, names, and streams of bytes with counts of faults.
#![tactic(auto)]

mod addr;
mod appending;
mod cell_rows;
mod cells;
mod count;
mod dict_method;
mod fault;
mod mem_sink;
mod mem_source;
mod name;
mod never_sink;
mod never_source;
mod sink;
mod source;
mod standard;
mod steps;
mod writing;

pub use addr::Addr;
pub use appending::append;
pub use cell_rows::{holder_rows, word_rows};
pub use cells::Cells;
pub use count::one_more;
pub use dict_method::DictMethod;
pub use fault::{OutOfMemory, ReadFailed, WriteFailed};
pub use mem_sink::MemSink;
pub use mem_source::MemSource;
pub use name::Name;
pub use never_sink::NeverSink;
pub use never_source::NeverSource;
pub use sink::Sink;
pub use source::Source;
pub use standard::{StdSink, StdSource};
pub use steps::Steps;
pub use writing::write_all;
