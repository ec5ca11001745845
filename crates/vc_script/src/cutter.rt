ghost use Rattle.std.specs.Prelude.{◌≡◌, ◌≢◌, ℕ, ◌+◌, ◌<◌, ◌≤◌, ◌++◌, [], length, slice_index, IsTrue, IfOk, vec_len, vec_capacity};
ghost use Rattle.vc_script.specs.Judged.{last_number};
ghost use Rattle.vc_script.specs.Lines.{without_cr};
ghost use Rattle.vc_script.specs.Cutting.{new_cutting};
ghost use Rattle.vc_script.specs.Cutter.{after_end, end_cut, result_of_feed};

use crate::LineFault;
use memchr::memchr;
use std::alloc::Global;
use std::marker::Model;
use std::mem;
use vc_base::{OutOfMemory, append};

// A line has at most so many bytes before its newline.
const LINE_LIMIT: usize = 4096;

// The greatest number of a line.
const LAST_NUMBER: u32 = 2_147_483_647;

/// What a call of the cutter found.
#[derive(Clone, Copy, Debug, PartialEq, Eq)]
pub enum Cut {
    /// A line is whole.
    Whole,

    /// The bytes are used up, and the line that has begun isn't whole.
    More,

    /// The line that has begun can't be taken: it is too long, or its number is too great.
    Bad(LineFault),
}

/// Cuts an input into lines, in pieces of any size. Lines end at newlines and are numbered from 1; a CR that is a
/// line's last byte is dropped. It reserves its memory when it is made, and needs none later.
#[derive(Debug, Drop)]
pub struct LineCutter {
    kept: Vec<u8>,
    line: Vec<u8>,
    count: u32,
    is_open: bool,
}

impl Model for LineCutter {
    ghost use Rattle.std.specs.Prelude.{◌≤◌, vec_capacity};
    ghost use Rattle.vc_script.specs.Judged.{line_limit};
    ghost use Rattle.vc_script.specs.Cutting.{Cutting, IsCutting};

    ghost Value = { Cutting };

    ghost view = { λ c.
        record { kept = c.kept.items; count = c.count; line = c.line.items; is_open = c.is_open } };

    ghost invariant = { λ c.
        IsCutting (record {
          kept = c.kept.items;
          count = c.count;
          line = c.line.items;
          is_open = c.is_open;
        })
        × (line_limit ≤ vec_capacity c.kept)
        × (line_limit ≤ vec_capacity c.line) };
}

impl LineCutter {
    /// A cutter to which nothing was fed.
    pub fn new(alloc: Global) -> Result<LineCutter, OutOfMemory>
        ensures { IfOk result (λ c. c ≡ new_cutting) }
    {
        let kept = Vec::with_capacity(alloc, LINE_LIMIT)?;
        let line = Vec::with_capacity(alloc, LINE_LIMIT)?;
        Ok(LineCutter {
            kept,
            line,
            count: 0,
            is_open: true,
        })
    }

    /// Takes bytes up to and with the first newline, and tells how many. Where a line has more than 4,096 bytes before
    /// its newline, or its number is above 2,147,483,647, it takes the bytes up to and with the one that shows it, and
    /// no call of `feed` or `end` may follow.
    pub fn feed(&mut self, piece: &[u8]) -> (Cut, usize)
        requires { IsTrue self.old.is_open }
        ensures fed { result_of_feed self.old piece.now
            ≡ record { after = self.new; cut = result.0; used = result.1 } }
        ensures within { result.1 ≤ length piece.now }
        ensures progress { 0 < length piece.now → 0 < result.1 }
    {
        if piece.is_empty() {
            return (Cut::More, 0);
        }
        if self.count == LAST_NUMBER {
            self.is_open = false;
            return (Cut::Bad(LineFault::TooManyLines), 1);
        }
        let n = plain_count(piece, LINE_LIMIT - self.kept.len());
        append(&mut self.kept, &piece[..n]);
        if n == piece.len() {
            return (Cut::More, n);
        }
        if piece[n] != b'\n' {
            self.is_open = false;
            return (Cut::Bad(LineFault::LineTooLong), n + 1);
        }
        end_line(&mut self.kept, &mut self.line);
        self.count += 1;
        (Cut::Whole, n + 1)
    }

    /// Ends the input: bytes of a line that has begun are the last line. No call of `feed` or `end` may follow.
    pub fn end(&mut self) -> Cut
        requires { IsTrue self.old.is_open }
        ensures state { self.new ≡ after_end self.old self.old.kept }
        ensures cut { result ≡ end_cut self.old.kept }
    {
        self.is_open = false;
        if self.kept.is_empty() {
            return Cut::More;
        }
        end_line(&mut self.kept, &mut self.line);
        self.count += 1;
        Cut::Whole
    }

    /// The last whole line, without its newline and without a CR that was its last byte; empty where there is none.
    pub fn line(&self) -> &[u8]
        ensures { result.now ≡ self.now.line }
    {
        self.line.as_slice()
    }

    /// The number of the last whole line; 0 where there is none.
    pub fn number(&self) -> u32
        ensures value { result ≡ self.now.count }
        ensures few { result ≤ last_number }
    {
        self.count
    }
}

// How many of the first bytes, at most that many, stand before a newline.
fn plain_count(bytes: &[u8], most: usize) -> usize
    ensures within { result ≤ length bytes.now }
    ensures few { result ≤ most }
    ensures plain { (k : ℕ) → k < result → slice_index bytes.now k ≢ 10 }
    ensures stop { result < most → result < length bytes.now → slice_index bytes.now result ≡ 10 }
{
    let end = bytes.len().min(most);
    match memchr(b'\n', &bytes[..end]) {
        Some(n) => n,
        None => end,
    }
}

// Makes the bytes that are kept the last whole line. The two buffers change places.
#[tactic(auto, using(crate::proofs::LineSteps::line_steps))]
fn end_line(kept: &mut Vec<u8>, line: &mut Vec<u8>)
    ensures line { line.new.items ≡ without_cr kept.old.items }
    ensures kept { kept.new.items ≡ [] }
    ensures line_capacity { vec_capacity line.new ≡ vec_capacity kept.old }
    ensures kept_capacity { vec_capacity kept.new ≡ vec_capacity line.old }
{
    mem::swap(kept, line);
    kept.clear();
    let len = drop_cr(line.as_slice()).len();
    line.truncate(len);
}

// A CR that is the line's last byte is dropped.
#[tactic(auto, using(crate::proofs::Cuts::cr_steps))]
fn drop_cr(line: &[u8]) -> &[u8]
    ensures { result.now ≡ without_cr line.now }
{
    match line.split_last() {
        Some((b'\r', front)) => front,
        _ => line,
    }
}
