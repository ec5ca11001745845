#![tactic(auto, using(crate::proofs::PrintSteps::front_steps))]

ghost use Rattle.std.specs.Prelude.{◌≡◌, ◌++◌, IfOk, OnErr, OnOk};
ghost use Rattle.vc_script.specs.Print.{line_of};
ghost use Rattle.vc_script.specs.Puts.{Puts};

use crate::Reply;
use crate::print_lines::{
    put_address, put_block_at, put_blocks, put_counted, put_damage, put_hex_line, put_named,
    put_number, put_object_line, put_objects, put_refused, put_rows, put_segment, put_segments,
    put_stats, put_three, put_watched, put_written,
};
use crate::print_parts::put;
use crate::print_texts::{method_word, viewed_text};
use std::alloc::{AllocError, Global};
use vc_base::OutOfMemory;

/// The line of a reply, with its newline: the exact bytes that the tools print.
pub fn print_reply(alloc: Global, reply: &Reply) -> Result<Vec<u8>, OutOfMemory>
    ensures { IfOk result (λ v. v.items ≡ line_of reply.now) }
{
    let mut line = Vec::new(alloc);
    put_reply(&mut line, reply)?;
    Ok(line)
}

/// Puts the line of a reply, with its newline, behind what stands in `text`, whole or not at all:
/// where memory is wanting the text stays as it was.
pub fn put_reply(text: &mut Vec<u8>, reply: &Reply) -> Result<(), OutOfMemory>
    ensures put { OnOk result (text.new.items ≡ text.old.items ++ line_of reply.now) }
    ensures same { OnErr result (text.new.items ≡ text.old.items) }
{
    let begun = text.len();
    match put_line(text, reply) {
        Ok(()) => Ok(()),
        Err(_) => {
            text.truncate(begun);
            Err(OutOfMemory)
        }
    }
}

fn put_line(line: &mut Vec<u8>, reply: &Reply) -> Result<(), AllocError>
    ensures { Puts line.old.items line.new.items result (line_of reply.now) }
{
    match reply {
        Reply::Opened(name) => put_named(line, name, b" open"),
        Reply::Closed(region, count) => put_counted(line, region, b" closed ", *count),
        Reply::Cleared(region) => put_named(line, region, b" cleared"),
        Reply::Compacted(region, count) => put_counted(line, region, b" compacted ", *count),
        Reply::At(block, place, watch) => put_block_at(line, block, *place, *watch),
        Reply::Freed(block, watch) => put_watched(line, block, b" freed", *watch),
        Reply::Written(block, count, watch) => put_written(line, block, *count, *watch),
        Reply::Hex(block, bytes) => put_hex_line(line, block, bytes),
        Reply::Size(block, size) => put_counted(line, block, b" ", *size),
        Reply::AddrIn(block, off) => put_address(line, block, *off),
        Reply::AddrNone => put(line, b"addr -1\n"),
        Reply::SegmentIs(number, size) => put_segment(line, *number, *size),
        Reply::SegmentNone => put(line, b"segment -1\n"),
        Reply::Stats(stat) => put_stats(line, stat),
        Reply::SegmentList(items) => put_segments(line, items),
        Reply::BlockList(items) => put_blocks(line, items),
        Reply::Poked(block, watch) => put_watched(line, block, b" poked", *watch),
        Reply::Damaged(items) => put_damage(line, items),
        Reply::Watched(block) => put_named(line, block, b" watched"),
        Reply::Rows(items) => put_rows(line, items),
        Reply::New(bytes) => put_object_line(line, b"new ", bytes),
        Reply::Old(bytes) => put_object_line(line, b"old ", bytes),
        Reply::Gone(bytes) => put_object_line(line, b"gone ", bytes),
        Reply::Out(bytes) => put_object_line(line, b"out ", bytes),
        Reply::Found(bytes) => put_object_line(line, b"found ", bytes),
        Reply::Nothing => put(line, b"none\n"),
        Reply::Objects(items) => put_objects(line, items),
        Reply::Number(count) => put_number(line, *count),
        Reply::Views(dict, viewed) => put_three(line, dict, b" views ", viewed_text(viewed)),
        Reply::MethodIs(dict, method) => put_three(line, dict, b" method ", method_word(*method)),
        Reply::Emptied(dict, count) => put_counted(line, dict, b" empty ", *count),
        Reply::ShutDown(dict) => put_named(line, dict, b" shut"),
        Reply::Refused(why) => put_refused(line, *why),
    }
}
