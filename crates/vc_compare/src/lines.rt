//! Reads the lines of a source one after another.

ghost use Rattle.std.specs.Prelude.{◌≡◌, ◌+◌, ◌<◌, ◌≤◌, [], IfOk, IfSome, IsTrue, OnErr, OnOk, false, length, true};
ghost use Rattle.vc_model.specs.Count.{Rose};
ghost use Rattle.vc_script.specs.Cutter.{result_of_feed};
ghost use Rattle.vc_script.specs.Cutting.{new_cutting};
ghost use Rattle.vc_script.specs.Judged.{last_number};
ghost use Rattle.vc_compare.specs.Reading.{CanRead, CutsLine, FillsReader, GivesNextLine, IsLastLine, IsOneMore, IsUsedUp, Readies, is_line, unread_of};

use std::alloc::Global;
use vc_base::{OutOfMemory, ReadFailed, Source};
use vc_script::{Cut, LineCutter, LineFault};

// So many bytes are read at a time.
const PIECE: usize = 4096;

/// What is next of a source.
#[derive(Clone, Copy, Debug, PartialEq, Eq)]
pub enum Next {
    /// A line that a newline ends.
    Line,
    /// The last line, which the end of the source ends.
    Last,
    /// A line that can't be taken: it is too long, or its number is too great.
    Bad(LineFault),
    /// The end of the source: there is no line more.
    End,
}

/// Reads the lines of a source one after another, in pieces of at most 4,096 bytes. It reserves its memory when it is made,
/// and needs none later.
#[derive(Drop)]
pub struct LineReader {
    /// Cuts the bytes that were read into lines.
    pub cutter: LineCutter,
    /// The piece that was read last.
    pub piece: Vec<u8>,
    /// How many bytes of the piece the cutter took.
    pub from: usize,
    /// How many bytes of the piece were read.
    pub end: usize,
}

impl LineReader {
    /// A reader that has read nothing.
    pub fn new(alloc: Global) -> Result<LineReader, OutOfMemory>
        ensures can { IfOk result CanRead }
        ensures nothing { IfOk result (λ r. unread_of r ≡ []) }
        ensures cutter { IfOk result (λ r. r.cutter ≡ new_cutting) }
    {
        let cutter = LineCutter::new(alloc)?;
        let piece = vec![in alloc; 0u8; PIECE]?;
        Ok(LineReader {
            cutter,
            piece,
            from: 0,
            end: 0,
        })
    }

    // Reads the next piece, and answers whether there is one.
    fn fill<S: Source>(&mut self, source: &mut S) -> Result<bool, ReadFailed>
        requires can { CanRead self.old }
        requires none { self.old.from ≡ self.old.end }
        ensures can { CanRead self.new }
        ensures cutter { self.new.cutter ≡ self.old.cutter }
        ensures some { IfOk result (λ some. some ≡ true → self.new.from < self.new.end) }
        ensures fills { IfSome (S.left source.old) (λ input. IfOk result (λ some.
            FillsReader some input self.new (S.left source.new))) }
        ensures failed { OnErr result (S.left source.new ≡ S.left source.old) }
        ensures nothing { OnErr result (unread_of self.new ≡ []) }
        ensures cause { OnErr result (Rose (S.failures source.old) (S.failures source.new)) }
        ensures never_falls { S.failures source.old ≤ S.failures source.new }
    {
        self.from = 0;
        self.end = 0;
        let n = source.read(&mut self.piece)?;
        self.end = n;
        Ok(n > 0)
    }

    // Reads the next piece where the cutter has taken the last one, and answers whether there are bytes for it.
    fn ready<S: Source>(&mut self, source: &mut S) -> Result<bool, ReadFailed>
        requires can { CanRead self.old }
        ensures can { CanRead self.new }
        ensures cutter { self.new.cutter ≡ self.old.cutter }
        ensures some { IfOk result (λ some. some ≡ true → self.new.from < self.new.end) }
        ensures readies { IfSome (S.left source.old) (λ input.
            Readies result self.old input self.new (S.left source.new)) }
        ensures cause { OnErr result (Rose (S.failures source.old) (S.failures source.new)) }
        ensures never_falls { S.failures source.old ≤ S.failures source.new }
    {
        if self.from < self.end {
            return Ok(true);
        }
        self.fill(source)
    }

    // Cuts a line off what was read, where one ends there.
    fn cut(&mut self) -> Cut
        requires can { CanRead self.old }
        requires some { self.old.from < self.old.end }
        ensures cuts { CutsLine result self.old self.new }
        ensures whole { is_line result ≡ true → IsOneMore self.old self.new }
        ensures more { result ≡ Cut.More → IsUsedUp self.old self.new }
    {
        let (cut, used) = self.cutter.feed(&self.piece[self.from..self.end]);
        self.from += used;
        cut
    }

    // Ends the reading: answers whether the end of the source ends a line.
    fn finish(&mut self) -> Next
        requires can { CanRead self.old }
        ensures last { IsLastLine result self.old self.new }
    {
        match self.cutter.end() {
            Cut::Whole => Next::Last,
            _ => Next::End,
        }
    }

    /// Reads up to the next line, which `line` and `number` tell then. A call may follow a line that a newline ends, and no
    /// other answer. A failed read loses nothing.
    pub fn next<S: Source>(&mut self, source: &mut S) -> Result<Next, ReadFailed>
        requires can { CanRead self.old }
        ensures gives { IfSome (S.left source.old) (λ input.
            GivesNextLine result self.old self.new input (S.left source.new)) }
        ensures line { IfOk result (λ next. next ≡ Next.Line → IsOneMore self.old self.new) }
        ensures cause { OnErr result (Rose (S.failures source.old) (S.failures source.new)) }
        ensures never_falls { S.failures source.old ≤ S.failures source.new }
    {
        loop {
            match self.ready(source) {
                Ok(true) => {}
                Ok(false) => return Ok(self.finish()),
                Err(failed) => return Err(failed),
            }
            match self.cut() {
                Cut::More => {}
                Cut::Bad(fault) => return Ok(Next::Bad(fault)),
                Cut::Whole => return Ok(Next::Line),
            }
        }
    }

    /// The last line, without its newline and without a CR that was its last byte.
    pub fn line(&self) -> &[u8]
        ensures { result.now ≡ self.now.cutter.line }
    {
        self.cutter.line()
    }

    /// How many lines were read: the number of the last one. At most 2,147,483,647.
    pub fn number(&self) -> u32
        ensures value { result ≡ self.now.cutter.count }
        ensures few { result ≤ last_number }
    {
        self.cutter.number()
    }
}
