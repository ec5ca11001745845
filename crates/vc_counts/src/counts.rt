ghost use Rattle.std.specs.Prelude.{◌≡◌, ◌+◌, ◌<◌, ◌≤◌, ◌^◌};
ghost use Rattle.vc_counts.specs.CanCount.{IsInRange, counted_commands};
ghost use Rattle.vc_counts.specs.Counts.{nothing_counted};
ghost use Rattle.vc_counts.specs.Working.{counts_after};

use vc_seg::Tally;

/// What a run counts of its commands.
#[derive(Clone, Copy, Debug, PartialEq, Eq)]
pub struct Counts {
    /// The commands that were done: those whose reply is no refusal.
    pub done: u32,
    /// The commands that were refused.
    pub refused: u32,
    /// The segments that were lent, also those that are back by now.
    pub segments: u64,
    /// The bytes of these segments, and those by which segments were made longer.
    pub bytes: u128,
    /// The bytes that the blocks of all open regions have now.
    pub busy: u128,
    /// The most bytes that these had after a command.
    pub peak: u128,
}

impl Counts {
    /// Of a run with no command, over no region.
    pub fn new() -> Counts
        ensures { result ≡ nothing_counted }
    {
        Counts {
            done: 0,
            refused: 0,
            segments: 0,
            bytes: 0,
            busy: 0,
            peak: 0,
        }
    }

    // Counts one more command, by whether it was refused, by the bytes that it reached before it and after it, and by its
    // region's segments before it and after it, from the one on that was the last before it.
    pub(crate) fn add(&mut self, refused: bool, before: u128, after: u128, last: Tally, now: Tally)
        requires range { IsInRange self.old }
        requires few { counted_commands self.old + 1 < 2 ^ 32 }
        requires part { before ≤ self.old.busy + after }
        requires reach { after ≤ 2 ^ 65 }
        requires segments { now.count ≤ 1023 }
        ensures value { self.new ≡ counts_after self.old refused before after last now }
        ensures range { IsInRange self.new }
    {
        if refused {
            self.refused += 1;
        } else {
            self.done += 1;
        }
        self.segments += now.count.saturating_sub(last.count);
        self.bytes += now.bytes.saturating_sub(last.bytes) as u128;
        self.busy = self.busy + after - before;
        self.peak = self.peak.max(self.busy);
    }
}
