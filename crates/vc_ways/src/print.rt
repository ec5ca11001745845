ghost use Rattle.std.specs.Prelude.{◌≡◌, ◌++◌, ◌∷◌, [], decimal, IfOk, OnOk};
ghost use Rattle.vc_ways.specs.Tally.{report, way_line};

use crate::Tally;
use itoa::Buffer;
use std::alloc::{AllocError, Global};
use vc_base::OutOfMemory;

// Puts a text and a number behind what is there.
fn put_number(text: &mut Vec<u8>, label: &[u8], n: u64) -> Result<(), AllocError>
    ensures { OnOk result (text.new.items ≡ text.old.items ++ label.now ++ decimal n) }
{
    let mut buffer = Buffer::new();
    text.extend_from_slice(label)?;
    text.extend_from_slice(buffer.format(n).as_bytes())
}

// Puts the line of a way behind what is there.
fn put_way(text: &mut Vec<u8>, word: &[u8], peak: u64, waste: u64) -> Result<(), AllocError>
    ensures { OnOk result (text.new.items ≡ text.old.items ++ way_line word.now peak waste) }
{
    text.extend_from_slice(word)?;
    put_number(text, b" peak ", peak)?;
    put_number(text, b" waste ", waste)?;
    text.push(b'\n')?;
    Ok(())
}

/// The four lines of a report: `live` and the greatest number of live bytes, and for each way its word, its peak and its
/// waste.
pub fn report(alloc: Global, tally: &Tally) -> Result<Vec<u8>, OutOfMemory>
    ensures { IfOk result (λ text. text.items ≡ report tally.now) }
{
    let mut text = Vec::new(alloc);
    put_number(&mut text, b"live ", tally.most)?;
    text.push(b'\n')?;
    put_way(&mut text, b"best", tally.peak.best, tally.waste.best)?;
    put_way(&mut text, b"last", tally.peak.last, tally.waste.last)?;
    put_way(&mut text, b"pool", tally.peak.pool, tally.waste.pool)?;
    Ok(text)
}
