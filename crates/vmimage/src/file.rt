// Files of images, by the library of the toolchain, of which nothing is proved.

use std::alloc::Global;
use std::fs::{self, File};
use std::io::{self, ErrorKind, Write};
use vc_image_run::ImageFault;

// What is told where a file isn't read.
fn unread(why: io::Error) -> ImageFault {
    if why.kind() == ErrorKind::OutOfMemory {
        ImageFault::Memory
    } else {
        ImageFault::Read
    }
}

// What is told where one isn't written.
fn unwritten(why: io::Error) -> ImageFault {
    if why.kind() == ErrorKind::OutOfMemory {
        ImageFault::Memory
    } else {
        ImageFault::Write
    }
}

// All bytes of a file.
pub(crate) fn read(rt: &HostRuntime, name: &str) -> Result<Vec<u8>, ImageFault> {
    match fs::read(rt, name) {
        Ok(image) => Ok(image),
        Err(why) => Err(unread(why)),
    }
}

// The name of the file that is written first, beside the one that it replaces.
fn beside(alloc: Global, name: &str) -> Result<String, ImageFault> {
    let Ok(mut new) = String::from_str(alloc, name) else {
        return Err(ImageFault::Memory);
    };
    match new.push_str(".new") {
        Ok(()) => Ok(new),
        Err(_) => Err(ImageFault::Memory),
    }
}

// Writes a file that isn't there yet, down to the disk.
fn write_new(rt: &HostRuntime, name: &str, bytes: &[u8]) -> io::Result<()> {
    let mut file = File::create_new(rt, name)?;
    let written = match file.write_all(bytes) {
        Ok(()) => file.sync_all(),
        Err(why) => Err(why),
    };
    if written.is_err() {
        let _ = fs::remove_file(rt, name);
    }
    written
}

// Writes a file beside that of a name and puts it into its place, so that the older one is replaced whole or not at all. A
// file that stands in the way is left alone.
pub(crate) fn replace(rt: &HostRuntime, name: &str, bytes: &[u8]) -> Result<(), ImageFault> {
    let new = beside(rt.alloc(), name)?;
    if let Err(why) = write_new(rt, new.as_str(), bytes) {
        return Err(unwritten(why));
    }
    match fs::rename(rt, new.as_str(), name) {
        Ok(()) => Ok(()),
        Err(why) => {
            let _ = fs::remove_file(rt, new.as_str());
            Err(unwritten(why))
        }
    }
}
