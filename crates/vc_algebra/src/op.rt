/// What is made of what is seen through two ordered dictionaries, D and E, of one kind. This project's own.
#[derive(Clone, Copy, Debug, PartialEq, Eq)]
pub enum Op {
    /// All of D, and what is seen through E and matches nothing of D, in order of keys.
    Union,
    /// What is seen through D and matches something of E.
    Meet,
    /// What is seen through D and matches nothing of E.
    Minus,
}
