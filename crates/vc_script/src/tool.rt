/// The tool that reads a script.
#[derive(Clone, Copy, Debug, PartialEq, Eq)]
pub enum Tool {
    /// Replays a script over regions.
    Vmreplay,
    /// Runs a script over regions and dictionaries.
    Dtrun,
}
