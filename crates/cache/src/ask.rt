ghost use Rattle.std.specs.Prelude.{◌≡◌, ◌≢◌, [], map, IfErr, IfOk, OnOk, string_bytes};
ghost use Rattle.vc_base.specs.Prelude.{HasOut};
ghost use Rattle.vc_best.specs.Parts.{segments_in};
ghost use Rattle.vc_objects.specs.Leaves.{KeepsDisc};
ghost use Rattle.vc_store.specs.Collections.{contents};
ghost use Rattle.cache.specs.Asking.{AsksKey, IsSized, Replies};
ghost use Rattle.cache.specs.Blaming.{Blames, put_fault_of};
ghost use Rattle.cache.specs.declared.ask.Fault.TheVariants.{WrongSize};
ghost use Rattle.cache.specs.Tables.{IsTable, StaysTable};

use crate::table::{Keys, admit, put_line};
use std::alloc::Global;
use vc_base::{DictMethod, OutOfMemory};
use vc_best::Best;
use vc_dtdisc::{BuiltIn, Shape};
use vc_seg::{BoxedDisc, RegionFault, SegDisc};
use vc_store::{Collection, Put};

// Why not all keys were asked for, by the program's status.
#[derive(Clone, Copy)]
pub(crate) enum Fault {
    WrongSize = 1,
    NoRoom = 2,
    Write = 4,
    Memory = 5,
}

// Asks for a key, and tells whether the table has it. Where it can't be put there, the answer says why.
fn ask(
    alloc: Global,
    set: &mut Keys,
    queue: &mut Keys,
    key: &[u8],
    lines: &mut Vec<u8>,
) -> Result<Put, OutOfMemory>
    requires { IsTable state set.old queue.old }
    ensures asks { IfOk result (λ put. AsksKey put key.now (contents queue.old).objects
        (contents queue.new).objects lines.old.items lines.new.items) }
    ensures size { IfOk result (λ put. IsSized put key.now) }
    ensures same { OnOk result ((contents set.new).objects ≡ (contents queue.new).objects) }
    ensures stays { StaysTable state set.old queue.old set.new queue.new }
{
    if set.find(key) {
        put_line(lines, b"hit ", key)?;
        return Ok(Put::Old);
    }
    let put = admit(alloc, set, queue, key, lines)?;
    if !put.is_there() {
        return Ok(put);
    }
    put_line(lines, b"new ", key)?;
    Ok(put)
}

// The fault of a key that can't be put.
fn fault_of(put: Put) -> Fault
    ensures { result ≡ put_fault_of put }
{
    match put {
        Put::WrongSize => Fault::WrongSize,
        Put::NoSegment => Fault::NoRoom,
        _ => Fault::Memory,
    }
}

// Asks an empty table for keys, one after another.
fn ask_each(
    alloc: Global,
    set: &mut Keys,
    queue: &mut Keys,
    keys: &[String],
) -> Result<Vec<u8>, Fault>
    requires table { IsTable state set.old queue.old }
    requires empty { (contents queue.old).objects ≡ [] }
    ensures replies { IfOk result (λ lines. Replies (map string_bytes keys.now) lines.items) }
    ensures blames { IfErr result (Blames (map string_bytes keys.now)) }
    ensures stays { StaysTable state set.old queue.old set.new queue.new }
{
    let mut lines = Vec::new(alloc);
    for key in keys {
        let Ok(put) = ask(alloc, set, queue, key.as_bytes(), &mut lines) else {
            return Err(Fault::Memory);
        };
        if !put.is_there() {
            return Err(fault_of(put));
        }
    }
    Ok(lines)
}

// The fault of a table that isn't opened.
fn unopened(why: RegionFault) -> Fault
    ensures { result ≢ WrongSize }
{
    match why {
        RegionFault::OutOfMemory => Fault::Memory,
        _ => Fault::NoRoom,
    }
}

// Asks an empty table for keys, over two regions of no segment, whose disciplines come back.
pub(crate) fn ask_keys(
    alloc: Global,
    set: Best,
    queue: Best,
    keys: &[String],
) -> (Result<Vec<u8>, Fault>, Box<dyn SegDisc>, Box<dyn SegDisc>)
    requires set { HasOut (state set.disc) (segments_in set) }
    requires queue { HasOut (state queue.disc) (segments_in queue) }
    ensures replies { IfOk result.0 (λ lines. Replies (map string_bytes keys.now) lines.items) }
    ensures blames { IfErr result.0 (Blames (map string_bytes keys.now)) }
    ensures set { KeepsDisc (state set.disc) (state result.1) (segments_in set) [] }
    ensures queue { KeepsDisc (state queue.disc) (state result.2) (segments_in queue) [] }
{
    let mut set = match Collection::open(set, DictMethod::DtSet, BuiltIn::new(Shape::Whole)) {
        Ok(set) => set,
        Err((why, set)) => return (Err(unopened(why)), set.close().0, queue.close().0),
    };
    let mut queue = match Collection::open(queue, DictMethod::DtQueue, BuiltIn::new(Shape::Whole)) {
        Ok(queue) => queue,
        Err((why, queue)) => return (Err(unopened(why)), set.close().0, queue.close().0),
    };
    let told = ask_each(alloc, &mut set, &mut queue, keys);
    (told, set.close().0, queue.close().0)
}
