/// One of the three ways in which a trace is run.
#[derive(Clone, Copy, Debug, PartialEq, Eq)]
pub enum Way {
    /// A region by exact best fit.
    Best,
    /// A region of blocks one behind another.
    Last,
    /// A pool for each size class.
    Pool,
}
