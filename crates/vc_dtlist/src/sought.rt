ghost use Rattle.std.specs.Prelude.{◌≡◌, ℕ};
ghost use Rattle.vc_dtlist.specs.Sought.{is_sought};

use std::cmp::Ordering;

/// How the key of the holder that is looked for stands to another key. This project's own.
#[derive(Clone, Copy, Debug, PartialEq, Eq)]
pub enum Sought {
    /// The two are equal.
    Equal,
    /// The holder's is equal or greater.
    NotLess,
    /// The holder's is greater.
    Greater,
}

impl Sought {
    // Whether an order is the one that is sought.
    pub(crate) fn is_in(self, order: Ordering) -> bool
        ensures { result ≡ is_sought self order }
    {
        match self {
            Sought::Equal => order.is_eq(),
            Sought::NotLess => order.is_ge(),
            Sought::Greater => order.is_gt(),
        }
    }
}
