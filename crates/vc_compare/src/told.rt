ghost use Rattle.std.specs.Prelude.{◌≡◌, ◌≤◌, OnErr, OnOk, length};
ghost use Rattle.vc_compare.specs.Told.{bad_line_text, error_line, trace_fault_text};
ghost use Rattle.vc_base.specs.Told.{Broke, Told};

use crate::ending::Fault;
use arrayvec::ArrayString;
use itoa::Buffer;
use vc_base::{Sink, WriteFailed, write_all};

// The longest line of err has 51 bytes: `vmcompare: line 2147483647: unknown method or mode` with its newline.
const LINE_BYTES: usize = 96;

// What keeps a line from being run.
fn fault_text(fault: Fault) -> &'static str
    ensures text { result.now ≡ trace_fault_text fault }
    ensures short { length result.now ≤ 22 }
{
    match fault {
        Fault::Bad(fault) => fault.text(),
        Fault::Outside => "not in a trace",
        Fault::NoSegment(_) => "no segment",
        Fault::TooMany(_) => "too many segments",
    }
}

// Writes what happened, in one line behind the tool's name.
pub(crate) fn tell<E: Sink>(err: &mut E, text: &str) -> Result<(), WriteFailed>
    requires { length text.now ≤ 80 }
    ensures told { OnOk result (Told (E.written err.old) (E.written err.new) (error_line text.now)) }
    ensures broke { OnErr result (Broke (E.failures err.old) (E.failures err.new)
        (E.written err.old) (E.written err.new) (error_line text.now)) }
    ensures never_falls { E.failures err.old ≤ E.failures err.new }
{
    let mut line = ArrayString::<LINE_BYTES>::new();
    line.push_str("vmcompare");
    line.push_str(": ");
    line.push_str(text);
    line.push_str("\n");
    write_all(err, line.as_str().as_bytes())
}

// Writes what keeps a line from being run.
pub(crate) fn tell_fault<E: Sink>(err: &mut E, n: u32, fault: Fault) -> Result<(), WriteFailed>
    ensures told { OnOk result (Told (E.written err.old) (E.written err.new) (bad_line_text n fault)) }
    ensures broke { OnErr result (Broke (E.failures err.old) (E.failures err.new)
        (E.written err.old) (E.written err.new) (bad_line_text n fault)) }
    ensures never_falls { E.failures err.old ≤ E.failures err.new }
{
    let mut buffer = Buffer::new();
    let mut text = ArrayString::<LINE_BYTES>::new();
    text.push_str("line ");
    text.push_str(buffer.format(n));
    text.push_str(": ");
    text.push_str(fault_text(fault));
    tell(err, text.as_str())
}
