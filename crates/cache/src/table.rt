ghost use Rattle.std.specs.Prelude.{◌≡◌, ◌++◌, None, IfOk, OnOk};
ghost use Rattle.vc_store.specs.Collections.{contents};
ghost use Rattle.vc_store.specs.Reading.{found};
ghost use Rattle.cache.specs.Asking.{Admits, Drops, IsSized, PutsKey, key_line, key_rules};
ghost use Rattle.cache.specs.Tables.{IsTable, StaysTable};

use std::alloc::Global;
use vc_base::OutOfMemory;
use vc_dtdisc::BuiltIn;
use vc_seg::{BoxedDisc, SegDisc};
use vc_store::{Collection, Put};

// A set or a queue of keys.
pub(crate) type Keys = Collection<BuiltIn>;

// Puts a line of a key.
pub(crate) fn put_line(lines: &mut Vec<u8>, word: &[u8], key: &[u8]) -> Result<(), OutOfMemory>
    ensures { OnOk result (lines.new.items ≡ lines.old.items ++ key_line word.now key.now) }
{
    lines.extend_from_slice(word)?;
    lines.extend_from_slice(key)?;
    lines.extend_from_slice(b"\n")?;
    Ok(())
}

// Takes the oldest key out and tells it, and answers whether there was one.
fn drop_oldest(
    alloc: Global,
    set: &mut Keys,
    queue: &mut Keys,
    lines: &mut Vec<u8>,
) -> Result<bool, OutOfMemory>
    requires { IsTable state set.old queue.old }
    ensures drops { IfOk result (λ gone. Drops gone (contents queue.old).objects
        (contents queue.new).objects lines.old.items lines.new.items) }
    ensures same { OnOk result ((contents set.new).objects ≡ (contents queue.new).objects) }
    ensures stays { StaysTable state set.old queue.old set.new queue.new }
{
    queue.first();
    let Some(key) = queue.current() else {
        return Ok(false);
    };
    let mut oldest = Vec::new(alloc);
    oldest.extend_from_slice(key)?;
    let mut out = Vec::new(alloc);
    let _ = queue.remove(oldest.as_slice(), &mut out)?;
    let _ = set.remove(oldest.as_slice(), &mut out)?;
    put_line(lines, b"gone ", oldest.as_slice())?;
    Ok(true)
}

// Puts a key that the table hasn't, into both or into neither.
fn put_both(alloc: Global, set: &mut Keys, queue: &mut Keys, key: &[u8]) -> Result<Put, OutOfMemory>
    requires table { IsTable state set.old queue.old }
    requires new { found key_rules key.now (contents queue.old).objects ≡ None }
    ensures puts { IfOk result (λ put. PutsKey put key.now (contents queue.old).objects
        (contents queue.new).objects) }
    ensures size { IfOk result (λ put. IsSized put key.now) }
    ensures same { OnOk result ((contents set.new).objects ≡ (contents queue.new).objects) }
    ensures stays { StaysTable state set.old queue.old set.new queue.new }
{
    let queued = queue.insert(key);
    if !queued.is_there() {
        return Ok(queued);
    }
    let put = set.insert(key);
    if put.is_there() {
        return Ok(put);
    }
    let mut out = Vec::new(alloc);
    let _ = queue.remove(key, &mut out)?;
    Ok(put)
}

// Puts a key that the table hasn't: while a segment is refused the oldest key goes, and is told.
pub(crate) fn admit(
    alloc: Global,
    set: &mut Keys,
    queue: &mut Keys,
    key: &[u8],
    lines: &mut Vec<u8>,
) -> Result<Put, OutOfMemory>
    requires table { IsTable state set.old queue.old }
    requires new { found key_rules key.now (contents queue.old).objects ≡ None }
    ensures admits { IfOk result (λ put. Admits put key.now (contents queue.old).objects
        (contents queue.new).objects lines.old.items lines.new.items) }
    ensures size { IfOk result (λ put. IsSized put key.now) }
    ensures same { OnOk result ((contents set.new).objects ≡ (contents queue.new).objects) }
    ensures stays { StaysTable state set.old queue.old set.new queue.new }
{
    loop {
        match put_both(alloc, set, queue, key)? {
            Put::NoSegment => {}
            put => return Ok(put),
        }
        if !drop_oldest(alloc, set, queue, lines)? {
            return Ok(Put::NoSegment);
        }
    }
}
