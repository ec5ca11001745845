ghost use Rattle.std.specs.Prelude.{◌≡◌, codes, map, OnOk};
ghost use Rattle.vc_script.specs.FirstWords.{answer_in, block_spelling, dictionary_spelling, numbers_spelling, one_region_spelling, place_spelling, region_spelling};
ghost use Rattle.vc_script.specs.Table.{own_rows, region_rows, table};

use crate::byte_shape::write_in;
use crate::dict_table::dictionary_answer;
use crate::first_word::{
    BlockWord, DictionaryWord, FirstWord, NumbersWord, OneRegion, PlaceWord, RegionWord, first_word,
};
use crate::name_word::some_name;
use crate::shape::{
    address_in, alloc_in, block_in, name_in, numbers_in, open_in, poke_in, resize_in,
};
use crate::{Command, LineAnswer, LineFault, Tool};
use std::alloc::Global;
use vc_base::OutOfMemory;

// What the words of a line ask for, among every command of the tool. An answer is put where the caller wants it, since one
// that is handed on is copied.
pub(crate) fn answer_in(
    alloc: Global,
    tool: Tool,
    first: &[u8],
    others: &[&[u8]],
    asked: &mut LineAnswer,
) -> Result<(), OutOfMemory>
    ensures { OnOk result (asked.new
        ≡ answer_in (table tool) first.now (map (λ w. w.now) others.now)) }
{
    match first_word(first) {
        Some(FirstWord::Region(word)) => region_answer(alloc, word, others, asked),
        Some(FirstWord::Dictionary(word)) => own_answer(alloc, tool, word, others, asked),
        None => {
            *asked = LineAnswer::Bad(LineFault::UnknownCommand);
            Ok(())
        }
    }
}

// The commands that not every tool has.
fn own_answer(
    alloc: Global,
    tool: Tool,
    first: DictionaryWord,
    others: &[&[u8]],
    asked: &mut LineAnswer,
) -> Result<(), OutOfMemory>
    ensures { OnOk result (asked.new
        ≡ answer_in (own_rows tool) (dictionary_spelling first) (map (λ w. w.now) others.now)) }
{
    match tool {
        Tool::Vmreplay => {
            *asked = LineAnswer::Bad(LineFault::UnknownCommand);
            Ok(())
        }
        Tool::Dtrun => dictionary_answer(alloc, first, others, asked),
    }
}

// The commands that both tools have. Those of a shape stand in a function that isn't inlined: a line takes room for the
// values of its own shape alone.
fn region_answer(
    alloc: Global,
    first: RegionWord,
    others: &[&[u8]],
    asked: &mut LineAnswer,
) -> Result<(), OutOfMemory>
    ensures { OnOk result (asked.new
        ≡ answer_in region_rows (region_spelling first) (map (λ w. w.now) others.now)) }
{
    match first {
        RegionWord::Open => open_answer(others, asked),
        RegionWord::Alloc => alloc_answer(others, asked),
        RegionWord::Resize => resize_answer(others, asked),
        RegionWord::Write => return write_answer(alloc, others, asked),
        RegionWord::Poke => poke_answer(others, asked),
        RegionWord::One(word) => one_region_answer(word, others, asked),
        RegionWord::Block(word) => block_answer(word, others, asked),
        RegionWord::Place(word) => place_answer(word, others, asked),
        RegionWord::Numbers(word) => numbers_answer(word, others, asked),
    }
    Ok(())
}

#[inline(never)]
fn open_answer(others: &[&[u8]], asked: &mut LineAnswer)
    ensures { asked.new
        ≡ answer_in region_rows (codes "open") (map (λ w. w.now) others.now) }
{
    match open_in(others) {
        Ok((region, method, place)) => *asked = LineAnswer::Is(Command::OpenRegion(
            region.name(),
            method,
            place,
        )),
        Err(fault) => *asked = LineAnswer::Bad(fault),
    }
}

#[inline(never)]
fn alloc_answer(others: &[&[u8]], asked: &mut LineAnswer)
    ensures { asked.new
        ≡ answer_in region_rows (codes "alloc") (map (λ w. w.now) others.now) }
{
    match alloc_in(others) {
        Ok((region, block, size, site)) => *asked = LineAnswer::Is(Command::Alloc(
            region.name(),
            block.name(),
            size,
            some_name(site),
        )),
        Err(fault) => *asked = LineAnswer::Bad(fault),
    }
}

#[inline(never)]
fn resize_answer(others: &[&[u8]], asked: &mut LineAnswer)
    ensures { asked.new
        ≡ answer_in region_rows (codes "resize") (map (λ w. w.now) others.now) }
{
    match resize_in(others) {
        Ok((region, block, size, moves)) => *asked = LineAnswer::Is(Command::Resize(
            region.name(),
            block.name(),
            size,
            moves,
        )),
        Err(fault) => *asked = LineAnswer::Bad(fault),
    }
}

#[inline(never)]
fn write_answer(alloc: Global, others: &[&[u8]], asked: &mut LineAnswer) -> Result<(), OutOfMemory>
    ensures { OnOk result (asked.new
        ≡ answer_in region_rows (codes "write") (map (λ w. w.now) others.now)) }
{
    match write_in(alloc, others)? {
        Ok((region, block, off, bytes)) => *asked = LineAnswer::Is(Command::WriteBlock(
            region.name(),
            block.name(),
            off,
            bytes,
        )),
        Err(fault) => *asked = LineAnswer::Bad(fault),
    }
    Ok(())
}

#[inline(never)]
fn poke_answer(others: &[&[u8]], asked: &mut LineAnswer)
    ensures { asked.new
        ≡ answer_in region_rows (codes "poke") (map (λ w. w.now) others.now) }
{
    match poke_in(others) {
        Ok((region, block, off, byte)) => *asked = LineAnswer::Is(Command::Poke(
            region.name(),
            block.name(),
            off,
            byte,
        )),
        Err(fault) => *asked = LineAnswer::Bad(fault),
    }
}

// `R`.
#[inline(never)]
fn one_region_answer(first: OneRegion, others: &[&[u8]], asked: &mut LineAnswer)
    ensures { asked.new
        ≡ answer_in region_rows (one_region_spelling first) (map (λ w. w.now) others.now) }
{
    match name_in(others) {
        Ok(region) => {
            let region = region.name();
            match first {
                OneRegion::Close => *asked = LineAnswer::Is(Command::CloseRegion(region)),
                OneRegion::Clear => *asked = LineAnswer::Is(Command::ClearRegion(region)),
                OneRegion::Compact => *asked = LineAnswer::Is(Command::Compact(region)),
                OneRegion::Stat => *asked = LineAnswer::Is(Command::StatOf(region)),
                OneRegion::Segments => *asked = LineAnswer::Is(Command::Segments(region)),
                OneRegion::Blocks => *asked = LineAnswer::Is(Command::Blocks(region)),
                OneRegion::Check => *asked = LineAnswer::Is(Command::Check(region)),
                OneRegion::Profile => *asked = LineAnswer::Is(Command::ProfileOf(region)),
            }
        }
        Err(fault) => *asked = LineAnswer::Bad(fault),
    }
}

// `R X`.
#[inline(never)]
fn block_answer(first: BlockWord, others: &[&[u8]], asked: &mut LineAnswer)
    ensures { asked.new
        ≡ answer_in region_rows (block_spelling first) (map (λ w. w.now) others.now) }
{
    match block_in(others) {
        Ok((region, block)) => {
            let region = region.name();
            let block = block.name();
            match first {
                BlockWord::Free => *asked = LineAnswer::Is(Command::Free(region, block)),
                BlockWord::Size => *asked = LineAnswer::Is(Command::SizeOf(region, block)),
                BlockWord::Watch => *asked = LineAnswer::Is(Command::Watch(region, block)),
            }
        }
        Err(fault) => *asked = LineAnswer::Bad(fault),
    }
}

// `R S:O`.
#[inline(never)]
fn place_answer(first: PlaceWord, others: &[&[u8]], asked: &mut LineAnswer)
    ensures { asked.new
        ≡ answer_in region_rows (place_spelling first) (map (λ w. w.now) others.now) }
{
    match address_in(others) {
        Ok((region, place)) => {
            let region = region.name();
            match first {
                PlaceWord::Addr => *asked = LineAnswer::Is(Command::AddrOf(region, place)),
                PlaceWord::Segment => *asked = LineAnswer::Is(Command::SegmentOf(region, place)),
            }
        }
        Err(fault) => *asked = LineAnswer::Bad(fault),
    }
}

// `R X`, and two numbers.
#[inline(never)]
fn numbers_answer(first: NumbersWord, others: &[&[u8]], asked: &mut LineAnswer)
    ensures { asked.new
        ≡ answer_in region_rows (numbers_spelling first) (map (λ w. w.now) others.now) }
{
    match numbers_in(others) {
        Ok((region, block, n, m)) => {
            let region = region.name();
            let block = block.name();
            match first {
                NumbersWord::Align => *asked = LineAnswer::Is(Command::Align(region, block, n, m)),
                NumbersWord::Read => *asked = LineAnswer::Is(Command::ReadBlock(
                    region, block, n, m,
                )),
            }
        }
        Err(fault) => *asked = LineAnswer::Bad(fault),
    }
}
