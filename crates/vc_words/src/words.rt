/// What a command line asks for. This project's own.
#[derive(Clone, Copy, Debug, PartialEq, Eq)]
pub struct Words {
    /// Whether `--quiet` is given.
    pub quiet: bool,
    /// Whether `--stat` is given.
    pub stat: bool,
    /// The N of `--gen N`, a count of commands from 1 to 1,000,000, where it is given.
    pub generate: Option<u32>,
    /// The K of `--seed K`, or 0 where it isn't given.
    pub seed: u32,
}
