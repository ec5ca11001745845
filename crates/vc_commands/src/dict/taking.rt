ghost use Rattle.std.specs.Prelude.{◌≡◌, ◌≤◌, [], None, Some, true, false, if◌then◌else◌, IfOk, OnOk};
ghost use Rattle.std.specs.Vec.{vec_capacity};
ghost use Rattle.vc_dtdisc.specs.Rules.{Gone, Rules};
ghost use Rattle.vc_best.specs.Cells.{cells_in, rest_in};
ghost use Rattle.vc_objects.specs.Parts.{IsWhole, dictionary_in};
ghost use Rattle.vc_objects.specs.Remove.{remove, remove_unnamed};
ghost use Rattle.vc_commands.specs.Answered.{answered};
ghost use Rattle.vc_commands.specs.DictCommands.{delete_in, gone_reply, remove_in, removed_as};
ghost use Rattle.vc_commands.specs.DictRun.{TakesDict, seat_in};

use crate::Uncounted;
use crate::dict::looking::is_object;
use std::alloc::Global;
use vc_base::{Addr, Cells, OutOfMemory, Steps};
use vc_best::Best;
use vc_dict::Dict;
use vc_dtdisc::DictDisc;
use vc_script::{Bytes, Refusal, Reply};
use vc_seg::{BoxedDisc, SegDisc};

// An empty vector that has room for an object now.
fn with_room(room: Vec<u8>) -> Result<Vec<u8>, OutOfMemory>
    requires { room.items ≡ [] }
    ensures empty { IfOk result (λ out. out.items ≡ []) }
    ensures room { IfOk result (λ out. 1024 ≤ vec_capacity out) }
{
    let mut out = room;
    out.reserve(1024)?;
    Ok(out)
}

// The reply to what was taken out.
fn gone_reply(is_gone: bool, object: Vec<u8>, tells: bool) -> Reply
    ensures { result ≡ gone_reply tells (if is_gone then Some object.items else None) }
{
    if !is_gone {
        return Reply::Nothing;
    }
    let object = Bytes::from_vec(object);
    if tells {
        Reply::Gone(object)
    } else {
        Reply::Out(object)
    }
}

// Takes out the first match of an object, telling the kind where that is wanted.
pub(crate) fn take<D: DictDisc>(
    alloc: Global,
    best: &mut Best,
    dict: &mut Dict,
    kind: &mut D,
    object: &[u8],
    tells: bool,
    reply: &mut Reply,
) -> Result<(), OutOfMemory>
    requires whole { IsWhole (D.rules kind.old) dict.old (cells_in best.old) }

    ensures takes { TakesDict state (answered result reply.new) (D.rules kind.old)
        (remove_in (seat_in state (D.rules kind.old) best.old dict.old) tells object.now)
        best.old dict.old (D.gone kind.old) best.new dict.new (D.gone kind.new) }
    ensures rules { D.rules kind.new ≡ D.rules kind.old }
{
    if !is_object(object) {
        *reply = Reply::Refused(Refusal::Size);
        return Ok(());
    }
    let mut out = with_room(reply.take_room(alloc))?;
    let mut steps = Steps::<Uncounted>::new(alloc);
    let key = kind.key(object);
    let is_gone = vc_objects::remove(best, dict, kind, key, tells, &mut out, &mut steps);
    *reply = gone_reply(is_gone, out, tells);
    Ok(())
}

// Takes out the first object of a stack or queue, telling the kind.
fn take_unnamed<D: DictDisc>(
    alloc: Global,
    best: &mut Best,
    dict: &mut Dict,
    kind: &mut D,
    reply: &mut Reply,
) -> Result<(), OutOfMemory>
    requires whole { IsWhole (D.rules kind.old) dict.old (cells_in best.old) }

    ensures takes { TakesDict state (answered result reply.new) (D.rules kind.old)
        (removed_as true (remove_unnamed (rest_in best.old) (dictionary_in dict.old best.old)))
        best.old dict.old (D.gone kind.old) best.new dict.new (D.gone kind.new) }
    ensures rules { D.rules kind.new ≡ D.rules kind.old }
{
    let mut out = with_room(reply.take_room(alloc))?;
    let is_gone = vc_objects::remove_unnamed(best, dict, kind, &mut out);
    *reply = gone_reply(is_gone, out, true);
    Ok(())
}

// `delete`: takes out the first match of an object, or the first object of a stack or queue, and tells the kind.
pub(crate) fn delete<D: DictDisc>(
    alloc: Global,
    best: &mut Best,
    dict: &mut Dict,
    kind: &mut D,
    object: &Option<Bytes>,
    reply: &mut Reply,
) -> Result<(), OutOfMemory>
    requires whole { IsWhole (D.rules kind.old) dict.old (cells_in best.old) }

    ensures takes { TakesDict state (answered result reply.new) (D.rules kind.old)
        (delete_in (seat_in state (D.rules kind.old) best.old dict.old) object.now)
        best.old dict.old (D.gone kind.old) best.new dict.new (D.gone kind.new) }
    ensures rules { D.rules kind.new ≡ D.rules kind.old }
{
    match object {
        Some(bytes) => take(alloc, best, dict, kind, bytes.as_slice(), true, reply),
        None => take_unnamed(alloc, best, dict, kind, reply),
    }
}
