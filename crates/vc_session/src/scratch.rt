ghost use Rattle.std.specs.Prelude.{◌≡◌, []};
ghost use Rattle.vc_counts.specs.Counts.{nothing_counted};

use std::alloc::Global;
use vc_counts::Counts;
use vc_script::{LineAnswer, Reply};

// What a run keeps from line to line. The objects of one line and its reply give their memory to those of the next.
#[derive(Drop)]
pub(crate) struct Scratch {
    // What was counted so far.
    pub counts: Counts,

    // What the line asks for.
    pub asked: LineAnswer,

    // Its reply.
    pub reply: Reply,

    // The printed replies that aren't written yet.
    pub replies: Vec<u8>,
}

impl Scratch {
    // That of a run that has no line yet.
    pub fn new(alloc: Global) -> Scratch
        ensures none { result.replies.items ≡ [] }
        ensures zero { result.counts ≡ nothing_counted }
    {
        Scratch {
            counts: Counts::new(),
            asked: LineAnswer::Blank,
            reply: Reply::Nothing,
            replies: Vec::new(alloc),
        }
    }
}
