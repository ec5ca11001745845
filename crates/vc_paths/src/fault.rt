use thiserror::Error;

/// Why a dictionary can't view another one, in the order in which the causes are looked for. This project's own.
#[derive(Clone, Copy, Debug, PartialEq, Eq, Error)]
pub enum ViewFault {
    /// Their methods or the numbers of their kinds differ.
    #[error("Differs")]
    Differs,
    /// The first is on the path of the second.
    #[error("Cycle")]
    Cycle,
    /// Some path would have more than 16 dictionaries.
    #[error("TooDeep")]
    TooDeep,
}
