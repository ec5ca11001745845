#![tactic(auto, using(crate::proofs::PrintSteps::front_steps))]

ghost use Rattle.std.specs.Prelude.{◌≤◌, ◌∷◌, ◌++◌, [], decimal, length};
ghost use Rattle.vc_script.specs.Print.{line_of, watch_text};
ghost use Rattle.vc_script.specs.Puts.{Puts};
ghost use Rattle.vc_script.specs.Shown.{shown_bytes};
ghost use Rattle.vc_script.specs.declared.reply.Reply.TheVariants as reply;

use crate::line_end::{number_before, text_before, watch_before};
use crate::print_lists::{
    put_each_block, put_each_damage, put_each_object, put_each_row, put_each_segment,
};
use crate::print_parts::{put, put_hex, put_labelled, put_object_between};
use crate::print_refusals::refused_words;
use crate::print_texts::label_text;
use crate::{BlockItems, Bytes, DamageItems, ObjectItems, Place, Refusal, RowItems, SegmentItems};
use std::alloc::AllocError;
use vc_base::Name;
use vc_seg::Stat;

// A name, two numbers of at most 20 digits and a watch take at most 104 bytes with the texts between them and the newline.
const LINE_BYTES: usize = 112;

// Eight such numbers take at most 214 bytes with their labels and the newline.
const STAT_BYTES: usize = 224;

// A name and a text.
pub(crate) fn put_named(line: &mut Vec<u8>, name: &Name, text: &[u8]) -> Result<(), AllocError>
    requires { length text.now ≤ 32 }
    ensures { Puts line.old.items line.new.items result (name.now ++ text.now ++ 10 ∷ []) }
{
    let mut buf = [0u8; LINE_BYTES];
    let at = text_before(&mut buf, LINE_BYTES, b"\n");
    let at = text_before(&mut buf, at, text);
    let at = text_before(&mut buf, at, name.bytes());
    put(line, &buf[at..])
}

// A name and two texts.
pub(crate) fn put_three(
    line: &mut Vec<u8>,
    name: &Name,
    second: &[u8],
    third: &[u8],
) -> Result<(), AllocError>
    requires second { length second.now ≤ 32 }
    requires third { length third.now ≤ 32 }
    ensures { Puts line.old.items line.new.items result
        (name.now ++ second.now ++ third.now ++ 10 ∷ []) }
{
    let mut buf = [0u8; LINE_BYTES];
    let at = text_before(&mut buf, LINE_BYTES, b"\n");
    let at = text_before(&mut buf, at, third);
    let at = text_before(&mut buf, at, second);
    let at = text_before(&mut buf, at, name.bytes());
    put(line, &buf[at..])
}

// A name, a text and a number.
pub(crate) fn put_counted(
    line: &mut Vec<u8>,
    name: &Name,
    text: &[u8],
    n: u32,
) -> Result<(), AllocError>
    requires { length text.now ≤ 32 }
    ensures { Puts line.old.items line.new.items result
        (name.now ++ text.now ++ decimal n ++ 10 ∷ []) }
{
    let mut buf = [0u8; LINE_BYTES];
    let at = text_before(&mut buf, LINE_BYTES, b"\n");
    let at = number_before(&mut buf, at, u64::from(n));
    let at = text_before(&mut buf, at, text);
    let at = text_before(&mut buf, at, name.bytes());
    put(line, &buf[at..])
}

// A name, a text and a watch.
pub(crate) fn put_watched(
    line: &mut Vec<u8>,
    block: &Name,
    text: &[u8],
    watch: Option<u32>,
) -> Result<(), AllocError>
    requires { length text.now ≤ 32 }
    ensures { Puts line.old.items line.new.items result
        (block.now ++ text.now ++ watch_text watch ++ 10 ∷ []) }
{
    let mut buf = [0u8; LINE_BYTES];
    let at = text_before(&mut buf, LINE_BYTES, b"\n");
    let at = watch_before(&mut buf, at, watch);
    let at = text_before(&mut buf, at, text);
    let at = text_before(&mut buf, at, block.bytes());
    put(line, &buf[at..])
}

pub(crate) fn put_block_at(
    line: &mut Vec<u8>,
    block: &Name,
    place: Place,
    watch: Option<u32>,
) -> Result<(), AllocError>
    ensures { Puts line.old.items line.new.items result (line_of (reply.At block.now place watch)) }
{
    let mut buf = [0u8; LINE_BYTES];
    let at = text_before(&mut buf, LINE_BYTES, b"\n");
    let at = watch_before(&mut buf, at, watch);
    let at = number_before(&mut buf, at, u64::from(place.off));
    let at = text_before(&mut buf, at, b":");
    let at = number_before(&mut buf, at, u64::from(place.seg));
    let at = text_before(&mut buf, at, b" ");
    let at = text_before(&mut buf, at, block.bytes());
    put(line, &buf[at..])
}

pub(crate) fn put_written(
    line: &mut Vec<u8>,
    block: &Name,
    count: u32,
    watch: Option<u32>,
) -> Result<(), AllocError>
    ensures { Puts line.old.items line.new.items result
        (line_of (reply.Written block.now count watch)) }
{
    let mut buf = [0u8; LINE_BYTES];
    let at = text_before(&mut buf, LINE_BYTES, b"\n");
    let at = watch_before(&mut buf, at, watch);
    let at = number_before(&mut buf, at, u64::from(count));
    let at = text_before(&mut buf, at, b" written ");
    let at = text_before(&mut buf, at, block.bytes());
    put(line, &buf[at..])
}

pub(crate) fn put_address(
    line: &mut Vec<u8>,
    block: &Option<Name>,
    off: u32,
) -> Result<(), AllocError>
    ensures { Puts line.old.items line.new.items result (line_of (reply.AddrIn block.now off)) }
{
    let mut buf = [0u8; LINE_BYTES];
    let at = text_before(&mut buf, LINE_BYTES, b"\n");
    let at = number_before(&mut buf, at, u64::from(off));
    let at = text_before(&mut buf, at, b" ");
    let at = text_before(&mut buf, at, label_text(block));
    let at = text_before(&mut buf, at, b"addr ");
    put(line, &buf[at..])
}

pub(crate) fn put_segment(line: &mut Vec<u8>, number: u32, size: u32) -> Result<(), AllocError>
    ensures { Puts line.old.items line.new.items result (line_of (reply.SegmentIs number size)) }
{
    let mut buf = [0u8; LINE_BYTES];
    let at = text_before(&mut buf, LINE_BYTES, b"\n");
    let at = number_before(&mut buf, at, u64::from(size));
    let at = text_before(&mut buf, at, b" ");
    let at = number_before(&mut buf, at, u64::from(number));
    let at = text_before(&mut buf, at, b"segment ");
    put(line, &buf[at..])
}

pub(crate) fn put_number(line: &mut Vec<u8>, count: u64) -> Result<(), AllocError>
    ensures { Puts line.old.items line.new.items result (line_of (reply.Number count)) }
{
    let mut buf = [0u8; LINE_BYTES];
    let at = text_before(&mut buf, LINE_BYTES, b"\n");
    let at = number_before(&mut buf, at, count);
    put(line, &buf[at..])
}

pub(crate) fn put_refused(line: &mut Vec<u8>, why: Refusal) -> Result<(), AllocError>
    ensures { Puts line.old.items line.new.items result (line_of (reply.Refused why)) }
{
    let (words, number) = refused_words(why);
    let mut buf = [0u8; LINE_BYTES];
    let at = text_before(&mut buf, LINE_BYTES, b"\n");
    let at = match number {
        None => at,
        Some(number) => number_before(&mut buf, at, u64::from(number)),
    };
    let at = text_before(&mut buf, at, words);
    put(line, &buf[at..])
}

pub(crate) fn put_stats(line: &mut Vec<u8>, stat: &Stat) -> Result<(), AllocError>
    ensures { Puts line.old.items line.new.items result (line_of (reply.Stats stat.now)) }
{
    let mut buf = [0u8; STAT_BYTES];
    let at = text_before(&mut buf, STAT_BYTES, b"\n");
    let at = number_before(&mut buf, at, stat.extent);
    let at = text_before(&mut buf, at, b" extent ");
    let at = number_before(&mut buf, at, u64::from(stat.segs));
    let at = text_before(&mut buf, at, b" segs ");
    let at = number_before(&mut buf, at, stat.mfree);
    let at = text_before(&mut buf, at, b" mfree ");
    let at = number_before(&mut buf, at, stat.mbusy);
    let at = text_before(&mut buf, at, b" mbusy ");
    let at = number_before(&mut buf, at, stat.sfree);
    let at = text_before(&mut buf, at, b" sfree ");
    let at = number_before(&mut buf, at, stat.sbusy);
    let at = text_before(&mut buf, at, b" sbusy ");
    let at = number_before(&mut buf, at, stat.free);
    let at = text_before(&mut buf, at, b" free ");
    let at = number_before(&mut buf, at, stat.busy);
    let at = text_before(&mut buf, at, b"busy ");
    put(line, &buf[at..])
}

pub(crate) fn put_hex_line(
    line: &mut Vec<u8>,
    block: &Name,
    bytes: &Bytes,
) -> Result<(), AllocError>
    ensures { Puts line.old.items line.new.items result (line_of (reply.Hex block.now bytes.now)) }
{
    put(line, block.bytes())?;
    put(line, b" ")?;
    put_hex(line, bytes.as_slice())?;
    put(line, b"\n")
}

// A short text and an object.
#[inline(always)]
pub(crate) fn put_object_line(
    line: &mut Vec<u8>,
    text: &[u8],
    bytes: &Bytes,
) -> Result<(), AllocError>
    requires { length text.now ≤ 8 }
    ensures { Puts line.old.items line.new.items result
        (text.now ++ shown_bytes bytes.now ++ 10 ∷ []) }
{
    put_object_between(line, text, bytes.as_slice(), b"\n")
}

pub(crate) fn put_segments(line: &mut Vec<u8>, items: &SegmentItems) -> Result<(), AllocError>
    ensures { Puts line.old.items line.new.items result (line_of (reply.SegmentList items.now)) }
{
    put_labelled(line, b"segments ", items.as_slice().len() as u64)?;
    put_each_segment(line, items)?;
    put(line, b"\n")
}

pub(crate) fn put_blocks(line: &mut Vec<u8>, items: &BlockItems) -> Result<(), AllocError>
    ensures { Puts line.old.items line.new.items result (line_of (reply.BlockList items.now)) }
{
    put_labelled(line, b"blocks ", items.as_slice().len() as u64)?;
    put_each_block(line, items)?;
    put(line, b"\n")
}

pub(crate) fn put_damage(line: &mut Vec<u8>, items: &DamageItems) -> Result<(), AllocError>
    ensures { Puts line.old.items line.new.items result (line_of (reply.Damaged items.now)) }
{
    put_labelled(line, b"check ", items.as_slice().len() as u64)?;
    put_each_damage(line, items)?;
    put(line, b"\n")
}

pub(crate) fn put_rows(line: &mut Vec<u8>, items: &RowItems) -> Result<(), AllocError>
    ensures { Puts line.old.items line.new.items result (line_of (reply.Rows items.now)) }
{
    put_labelled(line, b"profile ", items.as_slice().len() as u64)?;
    put_each_row(line, items)?;
    put(line, b"\n")
}

pub(crate) fn put_objects(line: &mut Vec<u8>, items: &ObjectItems) -> Result<(), AllocError>
    ensures { Puts line.old.items line.new.items result (line_of (reply.Objects items.now)) }
{
    put_labelled(line, b"", items.len() as u64)?;
    put_each_object(line, items)?;
    put(line, b"\n")
}
