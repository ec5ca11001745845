ghost use Rattle.std.specs.Prelude.{◌≡◌};
ghost use Rattle.vc_ways.specs.Tally.{beyond_live, greater, new_tally, none, tallied};

use crate::Each;

/// What is reported of a trace, so far, in bytes.
#[derive(Clone, Copy, Debug, PartialEq, Eq)]
pub struct Tally {
    /// The greatest sum of live sizes after a command.
    pub most: u64,
    /// The greatest extent of each way after a command.
    pub peak: Each,
    /// The extent of each way, less the live bytes, after the first command at which these were the greatest.
    pub waste: Each,
}

// No bytes.
pub(crate) fn none() -> Each
    ensures { result ≡ none }
{
    Each {
        best: 0,
        last: 0,
        pool: 0,
    }
}

// What is beyond the live bytes.
fn beyond(a: Each, live: u64) -> Each
    ensures { result ≡ beyond_live a live }
{
    Each {
        best: a.best.saturating_sub(live),
        last: a.last.saturating_sub(live),
        pool: a.pool.saturating_sub(live),
    }
}

// The greater of two numbers of each way.
fn greater(a: Each, b: Each) -> Each
    ensures { result ≡ greater a b }
{
    Each {
        best: a.best.max(b.best),
        last: a.last.max(b.last),
        pool: a.pool.max(b.pool),
    }
}

impl Tally {
    /// Of no command.
    pub fn new() -> Tally
        ensures { result ≡ new_tally }
    {
        Tally {
            most: 0,
            peak: none(),
            waste: none(),
        }
    }

    /// After one more command, which left so many live bytes and these extents.
    pub fn with(self, live: u64, extents: Each) -> Tally
        ensures { result ≡ tallied self live extents }
    {
        Tally {
            most: self.most.max(live),
            peak: greater(self.peak, extents),
            waste: if self.most < live {
                beyond(extents, live)
            } else {
                self.waste
            },
        }
    }
}
