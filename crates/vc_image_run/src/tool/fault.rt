use crate::script::ScriptFault;
use crate::session::OpenFault;
use vc_image::LoadFault;

/// What keeps a task on an image from its end. This project's own.
#[derive(Clone, Copy, Debug, PartialEq, Eq)]
pub enum ImageFault {
    /// The words behind the program's name aren't a task and a file.
    Usage,
    /// The file can't be read.
    Read,
    /// A write failed.
    Write,
    /// Want of memory.
    Memory,
    /// The image isn't sound, or isn't loaded.
    Load(LoadFault),
    /// No image is made of what a script leaves.
    Script(ScriptFault),
    /// The image isn't opened for a script.
    Open(OpenFault),
}
