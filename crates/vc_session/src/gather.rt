ghost use Rattle.std.specs.Prelude.{◌≡◌, ◌++◌, Some, codes, decimal, OnErr, OnOk};
ghost use Rattle.std.specs.Io.{StartsWith};
ghost use Rattle.vc_script.specs.Needs.{need_for, need_shown};
ghost use Rattle.vc_script.specs.Print.{line_of};
ghost use Rattle.vc_session.specs.QuietText.{is_need, line_by};
ghost use Rattle.vc_base.specs.Told.{Told};

use crate::style::Style;
use itoa::Buffer;
use vc_base::OutOfMemory;
use vc_script::{Refusal, Reply, put_reply};

// Whether a segment was refused.
fn is_segment(why: Refusal) -> bool
    ensures { result ≡ is_need (need_for why) }
{
    matches!(
        why,
        Refusal::NoSegment | Refusal::NoSegmentForTable | Refusal::NoSegmentForObject
    )
}

// Whether a reply refuses a segment.
fn refuses_segment(reply: &Reply) -> bool
    ensures { result ≡ is_need (need_shown reply.now) }
{
    match reply {
        Reply::Refused(why) => is_segment(*why),
        _ => false,
    }
}

// Puts the line of a reply behind its number. Where memory is wanting, the number may stand there alone.
#[tactic(auto, using(vc_script::proofs::PrintSteps::front_steps))]
fn put_numbered(replies: &mut Vec<u8>, n: u32, reply: &Reply) -> Result<(), OutOfMemory>
    ensures put { OnOk result (replies.new.items
        ≡ replies.old.items ++ decimal n ++ codes " " ++ line_of reply.now) }
    ensures front { StartsWith replies.new.items replies.old.items }
{
    let mut number = Buffer::new();
    replies.extend_from_slice(number.format(n).as_bytes())?;
    replies.push(b' ')?;
    put_reply(replies, reply)
}

// The same, whole or not at all.
#[inline(never)]
fn gather_numbered(replies: &mut Vec<u8>, n: u32, reply: &Reply) -> Result<(), OutOfMemory>
    ensures put { OnOk result (replies.new.items
        ≡ replies.old.items ++ decimal n ++ codes " " ++ line_of reply.now) }
    ensures same { OnErr result (replies.new.items ≡ replies.old.items) }
{
    let gathered = replies.len();
    match put_numbered(replies, n, reply) {
        Ok(()) => Ok(()),
        Err(want) => {
            replies.truncate(gathered);
            Err(want)
        }
    }
}

// Gathers what is written of the reply to the command of a line, whole or not at all: its line, plainly or behind the
// number, or quietly only a refused segment, behind the number.
pub(crate) fn gather(
    style: Style,
    n: u32,
    reply: &Reply,
    replies: &mut Vec<u8>,
) -> Result<(), OutOfMemory>
    ensures told { OnOk result (Told (Some replies.old.items) (Some replies.new.items)
        (line_by style (n, reply.now))) }
    ensures same { OnErr result (replies.new.items ≡ replies.old.items) }
{
    match style {
        Style::Plain => put_reply(replies, reply),
        Style::Numbered => gather_numbered(replies, n, reply),
        Style::Quiet => {
            if !refuses_segment(reply) {
                return Ok(());
            }
            gather_numbered(replies, n, reply)
        }
    }
}
