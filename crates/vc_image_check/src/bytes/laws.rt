ghost use Rattle.std.specs.Prelude.{◌≡◌, ℕ, ◌∷◌, [], List, ◌++◌, codes, replicate};
ghost use Rattle.vc_image_check.specs.Bytes.Contents.{contents_of_image};
ghost use Rattle.vc_image_check.specs.Bytes.Header.{AreBytes, AreContents, IsHeader};
ghost use Rattle.vc_image_check.specs.Bytes.Image.{ImageContents, image_of};
ghost use Rattle.vc_image_check.specs.Bytes.Rows.{no_contents, some_contents, some_image};

/// The images of nothing, and of a segment and a dictionary, and what is read of the latter.
pub fn image_rows()
    ensures nothing { image_of no_contents ≡ codes "VCIMAGE1" ++ replicate 12 0 }
    ensures written { image_of some_contents ≡ some_image }
    ensures read { contents_of_image some_image ≡ some_contents }
{}

/// Bytes with the head of an image are the image of what is read of them: nothing in them goes unread.
pub fn written_of_read()
    ensures { (bytes : List ℕ) → AreBytes bytes → IsHeader bytes
        → image_of (contents_of_image bytes) ≡ bytes }
{}

/// An image has the head of one, and what is read of it is what was written.
pub fn read_of_written()
    ensures head { (c : ImageContents) → AreContents c → IsHeader (image_of c) }
    ensures same { (c : ImageContents) → AreContents c → contents_of_image (image_of c) ≡ c }
{}
