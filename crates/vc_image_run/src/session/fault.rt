use vc_image::LoadFault;

/// Why no session is made of an image. This project's own.
#[derive(Clone, Copy, Debug, PartialEq, Eq)]
pub enum OpenFault {
    /// No discipline stands at the place of the shelf.
    NoDiscipline,
    /// The image isn't sound, or isn't loaded.
    Load(LoadFault),
    /// Two blocks of the image have one tag, or one is above 1,000,000.
    Tags,
}
