ghost use Rattle.std.specs.Prelude.{◌≡◌, ◌≤◌, ◌++◌, OnErr, OnOk, codes, decimal, length};
ghost use Rattle.arrayvec.specs.ArrayString.{array_string_len};
ghost use Rattle.vc_image_run.specs.declared.script.fault.ScriptFault.TheVariants.{Line as LineWrong};
ghost use Rattle.vc_image_run.specs.Tool.Told.{bad_segment_text, fault_line, image_fault_text, load_status, load_text, open_status, open_text, part_text, script_status, script_text, status_of_image_fault};
ghost use Rattle.vc_base.specs.Told.{Broke, Told, Tried};

use crate::script::ScriptFault;
use crate::session::OpenFault;
use crate::tool::{ImageFault, ImageStatus};
use arrayvec::ArrayString;
use itoa::Buffer;
use vc_base::{Sink, WriteFailed, write_all};
use vc_image::LoadFault;
use vc_image_check::Part;
use vc_script::LineFault;

// The longest line of err has 49 bytes: `vmimage: line 4294967295: unknown method or mode` with its newline.
const LINE_BYTES: usize = 96;

type Line = ArrayString<LINE_BYTES>;

// Puts a text and a number behind what stands in a line.
fn put_numbered(line: &mut Line, before: &str, number: u32)
    requires line { array_string_len line.old ≤ 24 }
    requires before { length before.now ≤ 16 }
    ensures bytes { line.new.bytes ≡ line.old.bytes ++ (before.now ++ decimal number) }
    ensures short { array_string_len line.new ≤ 80 }
{
    let mut buffer = Buffer::new();
    line.push_str(before);
    line.push_str(buffer.format(number));
}

// Puts the name of a part.
fn put_part(line: &mut Line, part: Part)
    requires { array_string_len line.old ≤ 24 }
    ensures bytes { line.new.bytes ≡ line.old.bytes ++ part_text part }
    ensures short { array_string_len line.new ≤ 80 }
{
    match part {
        Part::Header => line.push_str("header"),
        Part::Segment(number) => put_numbered(line, "segment ", number),
        Part::Tree => line.push_str("tree"),
        Part::Dictionary(number) => put_numbered(line, "dictionary ", number),
        Part::Rest => line.push_str("rest"),
    }
}

// Puts what is wrong with the segment of a number.
fn put_segment(line: &mut Line, number: u32, why: &str)
    requires line { array_string_len line.old ≤ 9 }
    requires why { length why.now ≤ 12 }
    ensures bytes { line.new.bytes ≡ line.old.bytes ++ bad_segment_text number why.now }
    ensures short { array_string_len line.new ≤ 92 }
{
    put_numbered(line, "segment ", number);
    line.push_str(why);
}

// Puts why an image isn't loaded.
fn put_load_fault(line: &mut Line, fault: LoadFault)
    requires { array_string_len line.old ≤ 9 }
    ensures bytes { line.new.bytes ≡ line.old.bytes ++ load_text fault }
    ensures short { array_string_len line.new ≤ 92 }
{
    match fault {
        LoadFault::Bad(part) => {
            line.push_str("unsound: ");
            put_part(line, part)
        }
        LoadFault::Round(number) => put_segment(line, number, ": wrong size"),
        LoadFault::Grows => line.push_str("too many segments"),
        LoadFault::NoSegment(number) => put_segment(line, number, ": no segment"),
        LoadFault::OutOfMemory => line.push_str("out of memory"),
    }
}

// Puts what is wrong with the line of a number.
fn put_line(line: &mut Line, number: u32, fault: LineFault)
    requires { array_string_len line.old ≤ 9 }
    ensures bytes { line.new.bytes ≡ line.old.bytes ++ script_text (LineWrong number fault) }
    ensures short { array_string_len line.new ≤ 92 }
{
    let mut buffer = Buffer::new();
    line.push_str("line ");
    line.push_str(buffer.format(number));
    line.push_str(": ");
    line.push_str(fault.text());
}

// Puts why no image is made of what a script leaves.
fn put_script_fault(line: &mut Line, fault: ScriptFault)
    requires { array_string_len line.old ≤ 9 }
    ensures bytes { line.new.bytes ≡ line.old.bytes ++ script_text fault }
    ensures short { array_string_len line.new ≤ 92 }
{
    match fault {
        ScriptFault::Line(number, fault) => put_line(line, number, fault),
        ScriptFault::Read => line.push_str("read failed"),
        ScriptFault::Write => line.push_str("write failed"),
        ScriptFault::Memory => line.push_str("out of memory"),
        ScriptFault::NoRegion => line.push_str("no region"),
        ScriptFault::WrongMethod => line.push_str("wrong method"),
        ScriptFault::Unsound(part) => put_load_fault(line, LoadFault::Bad(part)),
    }
}

// Puts why an image isn't opened for a script.
fn put_open_fault(line: &mut Line, fault: OpenFault)
    requires { array_string_len line.old ≤ 9 }
    ensures bytes { line.new.bytes ≡ line.old.bytes ++ open_text fault }
    ensures short { array_string_len line.new ≤ 92 }
{
    match fault {
        OpenFault::NoDiscipline => line.push_str("no discipline"),
        OpenFault::Load(fault) => put_load_fault(line, fault),
        OpenFault::Tags => line.push_str("wrong tags"),
    }
}

// Puts what is wrong.
fn put_fault(line: &mut Line, fault: ImageFault)
    requires { array_string_len line.old ≤ 9 }
    ensures bytes { line.new.bytes ≡ line.old.bytes ++ image_fault_text fault }
    ensures short { array_string_len line.new ≤ 92 }
{
    match fault {
        ImageFault::Usage => line.push_str("bad arguments"),
        ImageFault::Read => line.push_str("read failed"),
        ImageFault::Write => line.push_str("write failed"),
        ImageFault::Memory => line.push_str("out of memory"),
        ImageFault::Load(fault) => put_load_fault(line, fault),
        ImageFault::Script(fault) => put_script_fault(line, fault),
        ImageFault::Open(fault) => put_open_fault(line, fault),
    }
}

// Writes what is wrong, in one line behind the program's name.
fn tell_fault<E: Sink>(err: &mut E, fault: ImageFault) -> Result<(), WriteFailed>
    ensures told { OnOk result (Told (E.written err.old) (E.written err.new) (fault_line fault)) }
    ensures broke { OnErr result (Broke (E.failures err.old) (E.failures err.new)
        (E.written err.old) (E.written err.new) (fault_line fault)) }
    ensures never_falls { E.failures err.old ≤ E.failures err.new }
{
    let mut line = Line::new();
    line.push_str("vmimage: ");
    put_fault(&mut line, fault);
    line.push_str("\n");
    write_all(err, line.as_str().as_bytes())
}

// The status of a script of which no image is made.
fn script_status(fault: ScriptFault) -> ImageStatus
    ensures { result ≡ script_status fault }
{
    match fault {
        ScriptFault::Line(_, _) => ImageStatus::Script,
        ScriptFault::Read => ImageStatus::Read,
        ScriptFault::Write => ImageStatus::Write,
        ScriptFault::Memory => ImageStatus::Memory,
        ScriptFault::NoRegion | ScriptFault::WrongMethod => ImageStatus::NoImage,
        ScriptFault::Unsound(_) => ImageStatus::Unsound,
    }
}

// The status of an image that isn't loaded.
fn load_status(fault: LoadFault) -> ImageStatus
    ensures { result ≡ load_status fault }
{
    match fault {
        LoadFault::Bad(_) => ImageStatus::Unsound,
        LoadFault::OutOfMemory => ImageStatus::Memory,
        LoadFault::Round(_) | LoadFault::Grows | LoadFault::NoSegment(_) => ImageStatus::NotLent,
    }
}

// The status of one that isn't opened for a script.
fn open_status(fault: OpenFault) -> ImageStatus
    ensures { result ≡ open_status fault }
{
    match fault {
        OpenFault::Load(fault) => load_status(fault),
        OpenFault::NoDiscipline | OpenFault::Tags => ImageStatus::NotLent,
    }
}

// The status of a fault.
fn status_of(fault: ImageFault) -> ImageStatus
    ensures { result ≡ status_of_image_fault fault }
{
    match fault {
        ImageFault::Usage => ImageStatus::Usage,
        ImageFault::Read => ImageStatus::Read,
        ImageFault::Write => ImageStatus::Write,
        ImageFault::Memory => ImageStatus::Memory,
        ImageFault::Load(fault) => load_status(fault),
        ImageFault::Script(fault) => script_status(fault),
        ImageFault::Open(fault) => open_status(fault),
    }
}

/// Tells what is wrong, in one line to `err`, and answers the status of that, whatever becomes of the line: all of it
/// is written, or a front of it where a write failed.
pub fn tell<E: Sink>(err: &mut E, fault: ImageFault) -> ImageStatus
    ensures status { result ≡ status_of_image_fault fault }
    ensures told { Tried (E.failures err.old) (E.failures err.new)
        (E.written err.old) (E.written err.new) (fault_line fault) }
    ensures never_falls { E.failures err.old ≤ E.failures err.new }
{
    let _ = tell_fault(err, fault);
    status_of(fault)
}
