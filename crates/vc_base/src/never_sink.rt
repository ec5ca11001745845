ghost use Rattle.std.specs.Prelude.{◌≡◌, ℕ, None, Ok, length, IfOk};
ghost use Rattle.vc_model.specs.Stream.{Writes};

use crate::{Sink, WriteFailed};

/// A sink that never fails: each write takes the whole piece. It keeps nothing and tells no bytes.
#[derive(Debug, Drop)]
pub struct NeverSink;

impl NeverSink {
    /// A sink that keeps nothing.
    pub fn new() -> NeverSink {
        NeverSink
    }
}

impl Sink for NeverSink {
    ghost written = { λ _. None };

    ghost failures = { λ _. 0 };

    fn write(&mut self, piece: &[u8]) -> Result<usize, WriteFailed>
        ensures count { result ≡ Ok (length piece.now) }

        // What each sink ensures.
        ensures ok { IfOk result (λ n. Writes None None piece.now n) }
    {
        Ok(piece.len())
    }

    fn faults(&self) -> u64 {
        0
    }
}
