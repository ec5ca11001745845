//! Writes all of a piece to a sink.

ghost use Rattle.std.specs.Prelude.{◌≡◌, ℕ, ◌≤◌, ◌++◌, Some, IfSome, OnOk, OnErr, take};
ghost use Rattle.vc_model.specs.Count.{Rose};

use crate::{Sink, WriteFailed};

/// Writes all of a piece, in as many writes as the sink wants. It fails with the first write that does; then a front of the
/// piece is written.
pub fn write_all<O: Sink>(out: &mut O, piece: &[u8]) -> Result<(), WriteFailed>
    ensures ok { OnOk result (IfSome (O.written out.old) (λ w.
        O.written out.new ≡ Some (w ++ piece.now))) }
    ensures front { IfSome (O.written out.old) (λ w. (k : ℕ)
        × (O.written out.new ≡ Some (w ++ take k piece.now))) }
    ensures cause { OnErr result (Rose (O.failures out.old) (O.failures out.new)) }
    ensures never_falls { O.failures out.old ≤ O.failures out.new }
{
    let mut done = 0;
    while done < piece.len() {
        let n = out.write(&piece[done..])?;
        done += n;
    }
    Ok(())
}
