mod entry;
mod look_rows;
mod looking;
mod putting;
mod rows;
mod running;
mod taking;
mod turning;

pub use entry::DictEntry;
pub use looking::look;
pub use running::run;
