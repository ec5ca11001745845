use crate::script::ScriptFault;
use crate::session::OpenFault;

/// Why no image is made of what a script leaves that is run over an image. This project's own.
#[derive(Clone, Copy, Debug, PartialEq, Eq)]
pub enum OverFault {
    /// The image wasn't opened, and nothing was run.
    Open(OpenFault),
    /// The script was run over it.
    Script(ScriptFault),
}
