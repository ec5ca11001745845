ghost use Rattle.std.specs.Prelude.{◌≡◌, [], None, true, false, IfOk, OnErr, OnOk};
ghost use Rattle.vc_base.specs.Prelude.{is_set};
ghost use Rattle.vc_base.specs.Methods.{is_list};
ghost use Rattle.vc_dtdisc.specs.Rules.{Gone, IsObject, Rules};
ghost use Rattle.vc_best.specs.Cells.{cells_in, rest_in};
ghost use Rattle.vc_objects.specs.Insert.{slots_wanted};
ghost use Rattle.vc_objects.specs.Leaves.{Looks};
ghost use Rattle.vc_objects.specs.Parts.{IsWhole, dictionary_in};
ghost use Rattle.vc_objects.specs.Promises.{CanAsk, CanPut, IsStill};
ghost use Rattle.vc_commands.specs.Answered.{answered};
ghost use Rattle.vc_commands.specs.DictCommands.{append_in, attach_in, fate_reply, insert_in, insert_made_in};
ghost use Rattle.vc_commands.specs.DictCommands.{put_object, matched_in_set};
ghost use Rattle.vc_commands.specs.DictRun.{IsOfHolder, IsSpent, RunsDict, object_in_holder, seat_in};

use crate::Uncounted;
use crate::dict::looking::{filled, is_object};
use std::alloc::Global;
use vc_base::{Addr, Cells, OutOfMemory, Steps};
use vc_best::Best;
use vc_dict::Dict;
use vc_dtdisc::DictDisc;
use vc_objects::{Fate, Want};
use vc_script::{Bytes, Refusal, Reply};
use vc_seg::{BoxedDisc, SegDisc};

// The reply to an object that was put.
fn fate_reply(object: Vec<u8>, fate: Fate) -> Reply
    ensures { result ≡ fate_reply object.items fate }
{
    match fate {
        Fate::Stored => Reply::New(Bytes::from_vec(object)),
        Fate::NoTable(Want::TooManySegments) | Fate::NoHolder(Want::TooManySegments) => {
            Reply::Refused(Refusal::TooManySegments)
        }
        Fate::NoTable(Want::NoSegment) => Reply::Refused(Refusal::NoSegmentForTable),
        Fate::NoHolder(Want::NoSegment) => Reply::Refused(Refusal::NoSegmentForObject),
    }
}

// Puts an object that none of a set matches.
fn put<D: DictDisc>(
    alloc: Global,
    best: &mut Best,
    dict: &mut Dict,
    kind: &D,
    object: Vec<u8>,
    append: bool,
    reply: &mut Reply,
) -> Result<(), OutOfMemory>
    requires can { CanPut state (D.rules kind.now) best.old dict.old object.items append }

    ensures runs { RunsDict state (answered result reply.new) (D.rules kind.now)
        (put_object (seat_in state (D.rules kind.now) best.old dict.old) append object.items)
        (slots_wanted (dictionary_in dict.old best.old)) object.items
        best.old dict.old (D.gone kind.now) best.new dict.new (D.gone kind.now) }
    ensures err { OnErr result (IsSpent (seat_in state (D.rules kind.now) best.old dict.old)
        (rest_in best.new) (dictionary_in dict.new best.new)) }
{
    let mut steps = Steps::<Uncounted>::new(alloc);
    let fate = vc_objects::insert(best, dict, kind, &object, append, &mut steps)?;
    *reply = fate_reply(object, fate);
    Ok(())
}

// The holder of the object of a set that an object matches.
fn standing<D: DictDisc>(
    alloc: Global,
    best: &mut Best,
    dict: &mut Dict,
    kind: &D,
    object: &[u8],
) -> Option<Addr>
    requires whole { IsWhole (D.rules kind.now) dict.old (cells_in best.old) }

    ensures found { object_in_holder best.new result ≡ matched_in_set
        (seat_in state (D.rules kind.now) best.old dict.old) object.now }
    ensures within { IsOfHolder dict.new best.new result }
    ensures looks { Looks state (D.rules kind.now) best.old dict.old best.new dict.new }
{
    if dict.method.is_set() {
        let mut steps = Steps::<Uncounted>::new(alloc);
        vc_objects::find(best, dict, kind, kind.key(object), &mut steps)
    } else {
        None
    }
}

// Puts an object, unless one of a set matches it.
#[inline(always)]
fn put_unless<D: DictDisc>(
    alloc: Global,
    best: &mut Best,
    dict: &mut Dict,
    kind: &D,
    object: Vec<u8>,
    reply: &mut Reply,
) -> Result<(), OutOfMemory>
    requires ask { CanAsk state (D.rules kind.now) best.old dict.old }
    requires object { IsObject object.items }

    ensures runs { RunsDict state (answered result reply.new) (D.rules kind.now)
        (insert_in (seat_in state (D.rules kind.now) best.old dict.old) object.items)
        (slots_wanted (dictionary_in dict.old best.old)) object.items
        best.old dict.old (D.gone kind.now) best.new dict.new (D.gone kind.now) }
    ensures err { OnErr result (IsSpent (seat_in state (D.rules kind.now) best.old dict.old)
        (rest_in best.new) (dictionary_in dict.new best.new)) }
{
    match standing(alloc, best, dict, kind, &object) {
        Some(at) => {
            *reply = Reply::Old(Bytes::from_vec(filled(object, best.body(at))?));
            Ok(())
        }
        None => put(alloc, best, dict, kind, object, false, reply),
    }
}

// The object that is made of these bytes, in the memory of an empty vector.
#[inline(always)]
fn made_object<D: DictDisc>(room: Vec<u8>, kind: &D, bytes: &[u8]) -> Result<Vec<u8>, OutOfMemory>
    requires { room.items ≡ [] }
    ensures { IfOk result (λ out. out.items ≡ (D.rules kind.now).made bytes.now) }
{
    let mut out = room;
    kind.make(bytes, &mut out)?;
    Ok(out)
}

// `insert`: puts the object that is made of these bytes, unless one of a set matches it.
pub(crate) fn insert<D: DictDisc>(
    alloc: Global,
    best: &mut Best,
    dict: &mut Dict,
    kind: &D,
    object: &[u8],
    reply: &mut Reply,
) -> Result<(), OutOfMemory>
    requires ask { CanAsk state (D.rules kind.now) best.old dict.old }

    ensures runs { RunsDict state (answered result reply.new) (D.rules kind.now)
        (insert_made_in (seat_in state (D.rules kind.now) best.old dict.old) object.now)
        (slots_wanted (dictionary_in dict.old best.old)) ((D.rules kind.now).made object.now)
        best.old dict.old (D.gone kind.now) best.new dict.new (D.gone kind.now) }
    ensures err { OnErr result (IsSpent (seat_in state (D.rules kind.now) best.old dict.old)
        (rest_in best.new) (dictionary_in dict.new best.new)) }
{
    if !is_object(object) {
        *reply = Reply::Refused(Refusal::Size);
        return Ok(());
    }
    let out = made_object(reply.take_room(alloc), kind, object)?;
    put_unless(alloc, best, dict, kind, out, reply)
}

// `attach`: puts the object itself, unless one of a set matches it.
pub(crate) fn attach<D: DictDisc>(
    alloc: Global,
    best: &mut Best,
    dict: &mut Dict,
    kind: &D,
    object: &[u8],
    reply: &mut Reply,
) -> Result<(), OutOfMemory>
    requires ask { CanAsk state (D.rules kind.now) best.old dict.old }

    ensures runs { RunsDict state (answered result reply.new) (D.rules kind.now)
        (attach_in (seat_in state (D.rules kind.now) best.old dict.old) object.now)
        (slots_wanted (dictionary_in dict.old best.old)) object.now
        best.old dict.old (D.gone kind.now) best.new dict.new (D.gone kind.now) }
    ensures err { OnErr result (IsSpent (seat_in state (D.rules kind.now) best.old dict.old)
        (rest_in best.new) (dictionary_in dict.new best.new)) }
{
    if !is_object(object) {
        *reply = Reply::Refused(Refusal::Size);
        return Ok(());
    }
    let out = filled(reply.take_room(alloc), object)?;
    put_unless(alloc, best, dict, kind, out, reply)
}

// `append`: puts the object that is made of these bytes behind the current one of a list.
pub(crate) fn append<D: DictDisc>(
    alloc: Global,
    best: &mut Best,
    dict: &mut Dict,
    kind: &D,
    object: &[u8],
    reply: &mut Reply,
) -> Result<(), OutOfMemory>
    requires ask { CanAsk state (D.rules kind.now) best.old dict.old }

    ensures runs { RunsDict state (answered result reply.new) (D.rules kind.now)
        (append_in (seat_in state (D.rules kind.now) best.old dict.old) object.now)
        (slots_wanted (dictionary_in dict.old best.old)) ((D.rules kind.now).made object.now)
        best.old dict.old (D.gone kind.now) best.new dict.new (D.gone kind.now) }
    ensures err { OnErr result (IsStill best.old dict.old best.new dict.new) }
{
    if !dict.method.is_list() {
        *reply = Reply::Refused(Refusal::WrongMethod);
        return Ok(());
    }
    if !is_object(object) {
        *reply = Reply::Refused(Refusal::Size);
        return Ok(());
    }
    let out = made_object(reply.take_room(alloc), kind, object)?;
    put(alloc, best, dict, kind, out, true, reply)
}
