#![tactic(auto, using(crate::proofs::PrintSteps::front_steps))]

ghost use Rattle.std.specs.List.{flat_map};
ghost use Rattle.vc_script.specs.Print.{block_text, damage_text, object_text, row_text, segment_text};
ghost use Rattle.vc_script.specs.Puts.{Puts};

use crate::line_end::{number_before, text_before};
use crate::print_parts::{put, put_object_between};
use crate::print_texts::label_text;
use crate::{BlockItems, DamageItems, ObjectItems, Place, RowItems, SegmentItems};
use itoa::Buffer;
use std::alloc::AllocError;
use vc_base::Name;
use vc_seg::ProfileRow;

// The longest item has 96 bytes: a name and three numbers.
const ITEM_BYTES: usize = 96;

pub(crate) fn put_each_segment(line: &mut Vec<u8>, items: &SegmentItems) -> Result<(), AllocError>
    ensures { Puts line.old.items line.new.items result (flat_map segment_text items.now) }
{
    for item in items.as_slice() {
        put_one_segment(line, *item)?;
    }
    Ok(())
}

fn put_one_segment(line: &mut Vec<u8>, item: (u32, u32)) -> Result<(), AllocError>
    ensures { Puts line.old.items line.new.items result (segment_text item) }
{
    let mut buf = [0u8; ITEM_BYTES];
    let at = number_before(&mut buf, ITEM_BYTES, u64::from(item.1));
    let at = text_before(&mut buf, at, b":");
    let at = number_before(&mut buf, at, u64::from(item.0));
    let at = text_before(&mut buf, at, b" ");
    put(line, &buf[at..])
}

pub(crate) fn put_each_block(line: &mut Vec<u8>, items: &BlockItems) -> Result<(), AllocError>
    ensures { Puts line.old.items line.new.items result (flat_map block_text items.now) }
{
    for item in items.as_slice() {
        put_block(line, item)?;
    }
    Ok(())
}

fn put_block(line: &mut Vec<u8>, item: &(Option<Name>, Place, u32)) -> Result<(), AllocError>
    ensures { Puts line.old.items line.new.items result (block_text item.now) }
{
    let mut buf = [0u8; ITEM_BYTES];
    let at = number_before(&mut buf, ITEM_BYTES, u64::from(item.2));
    let at = text_before(&mut buf, at, b"+");
    let at = number_before(&mut buf, at, u64::from(item.1.off));
    let at = text_before(&mut buf, at, b":");
    let at = number_before(&mut buf, at, u64::from(item.1.seg));
    let at = text_before(&mut buf, at, b"@");
    let at = text_before(&mut buf, at, label_text(&item.0));
    let at = text_before(&mut buf, at, b" ");
    put(line, &buf[at..])
}

pub(crate) fn put_each_damage(line: &mut Vec<u8>, items: &DamageItems) -> Result<(), AllocError>
    ensures { Puts line.old.items line.new.items result (flat_map damage_text items.now) }
{
    for item in items.as_slice() {
        put_damaged(line, item)?;
    }
    Ok(())
}

fn put_damaged(line: &mut Vec<u8>, item: &(Name, i64)) -> Result<(), AllocError>
    ensures { Puts line.old.items line.new.items result (damage_text item.now) }
{
    let mut digits = Buffer::new();
    let mut buf = [0u8; ITEM_BYTES];
    let at = text_before(&mut buf, ITEM_BYTES, digits.format(item.1).as_bytes());
    let at = text_before(&mut buf, at, b":");
    let at = text_before(&mut buf, at, item.0.bytes());
    let at = text_before(&mut buf, at, b" ");
    put(line, &buf[at..])
}

pub(crate) fn put_each_row(line: &mut Vec<u8>, items: &RowItems) -> Result<(), AllocError>
    ensures { Puts line.old.items line.new.items result (flat_map row_text items.now) }
{
    for item in items.as_slice() {
        put_row(line, item)?;
    }
    Ok(())
}

fn put_row(line: &mut Vec<u8>, row: &ProfileRow) -> Result<(), AllocError>
    ensures { Puts line.old.items line.new.items result (row_text row.now) }
{
    let mut buf = [0u8; ITEM_BYTES];
    let at = number_before(&mut buf, ITEM_BYTES, row.peak);
    let at = text_before(&mut buf, at, b",");
    let at = number_before(&mut buf, at, row.bytes);
    let at = text_before(&mut buf, at, b",");
    let at = number_before(&mut buf, at, row.blocks);
    let at = text_before(&mut buf, at, b"=");
    let at = text_before(&mut buf, at, row.site.bytes());
    let at = text_before(&mut buf, at, b" ");
    put(line, &buf[at..])
}

pub(crate) fn put_each_object(line: &mut Vec<u8>, items: &ObjectItems) -> Result<(), AllocError>
    ensures { Puts line.old.items line.new.items result (flat_map object_text items.now) }
{
    for i in 0..items.len() {
        put_spaced_object(line, items.get(i))?;
    }
    Ok(())
}

fn put_spaced_object(line: &mut Vec<u8>, item: &[u8]) -> Result<(), AllocError>
    ensures { Puts line.old.items line.new.items result (object_text item.now) }
{
    put_object_between(line, b" ", item, b"")
}
