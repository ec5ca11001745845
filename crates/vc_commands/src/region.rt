mod audit;
mod blocks;
mod bytes;
mod home;
mod labels;
mod marks;
mod sizes;
mod tag_rows;
mod tagged;
mod tells;
mod whole;

pub use home::HomeEntry;
pub use labels::Labels;
pub use tagged::labels_by_tag;
