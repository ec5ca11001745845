ghost use Rattle.std.specs.Prelude.{◌≡◌, ◌≤◌, OnErr, OnOk, length};
ghost use Rattle.vc_session.specs.Replay.{err_line, message, tool_name};
ghost use Rattle.vc_base.specs.Told.{Broke, Told};

use arrayvec::ArrayString;
use itoa::Buffer;
use vc_base::{Sink, WriteFailed, write_all};
use vc_script::{LineFault, Tool};

// The longest line of err has 50 bytes: `vmreplay: line 2147483647: unknown method or mode` with its newline.
const LINE_BYTES: usize = 96;

fn tool_name(tool: Tool) -> &'static str
    ensures name { result.now ≡ tool_name tool }
    ensures short { length result.now ≤ 8 }
{
    match tool {
        Tool::Vmreplay => "vmreplay",
        Tool::Dtrun => "dtrun",
    }
}

// Writes what happened, in one line behind the tool's name.
pub(crate) fn tell<E: Sink>(err: &mut E, tool: Tool, text: &str) -> Result<(), WriteFailed>
    requires { length text.now ≤ 80 }
    ensures told { OnOk result (Told (E.written err.old) (E.written err.new)
        (message tool text.now)) }
    ensures broke { OnErr result (Broke (E.failures err.old) (E.failures err.new)
        (E.written err.old) (E.written err.new) (message tool text.now)) }
    ensures never_falls { E.failures err.old ≤ E.failures err.new }
{
    let mut line = ArrayString::<LINE_BYTES>::new();
    line.push_str(tool_name(tool));
    line.push_str(": ");
    line.push_str(text);
    line.push_str("\n");
    write_all(err, line.as_str().as_bytes())
}

// Writes what is wrong with a line.
pub(crate) fn tell_fault<E: Sink>(
    err: &mut E,
    tool: Tool,
    n: u32,
    fault: LineFault,
) -> Result<(), WriteFailed>
    ensures told { OnOk result (Told (E.written err.old) (E.written err.new)
        (err_line tool (n, fault))) }
    ensures broke { OnErr result (Broke (E.failures err.old) (E.failures err.new)
        (E.written err.old) (E.written err.new) (err_line tool (n, fault))) }
    ensures never_falls { E.failures err.old ≤ E.failures err.new }
{
    let mut buffer = Buffer::new();
    let mut text = ArrayString::<LINE_BYTES>::new();
    text.push_str("line ");
    text.push_str(buffer.format(n));
    text.push_str(": ");
    text.push_str(fault.text());
    tell(err, tool, text.as_str())
}
