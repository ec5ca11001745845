use thiserror::Error;

/// Why there is no range or operation, in the order in which the causes are looked for. This project's own.
#[derive(Clone, Copy, Debug, PartialEq, Eq, Error)]
pub enum AlgebraFault {
    /// The method of a dictionary that was named is neither an ordered set nor an ordered bag.
    #[error("NotOrdered")]
    NotOrdered,
    /// The numbers of the kinds of the two dictionaries differ.
    #[error("Differs")]
    Differs,
}
