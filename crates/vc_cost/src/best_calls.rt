ghost use Rattle.std.specs.Prelude.{◌≡◌, [], ◌∷◌, ◌++◌, OnOk, OnErr};

use crate::BestCall;
use std::alloc::Global;
use std::marker::Model;
use vc_base::OutOfMemory;

/// A list of calls on a best region.
#[derive(Debug, Drop)]
pub struct BestCalls {
    calls: Vec<BestCall>,
}

impl Model for BestCalls {
    ghost use Rattle.std.specs.Prelude.{List};
    ghost use Rattle.vc_cost.specs.declared.best_call.BestCall.{BestCall};

    ghost Value = { List BestCall };

    ghost view = { λ c. c.calls.items };
}

impl BestCalls {
    /// No calls. Takes no memory.
    pub fn new(alloc: Global) -> BestCalls
        ensures { result ≡ [] }
    {
        BestCalls {
            calls: Vec::new(alloc),
        }
    }

    /// Puts a call behind the others. Refused for want of memory alone, with nothing changed.
    pub fn add(&mut self, call: BestCall) -> Result<(), OutOfMemory>
        ensures ok { OnOk result (self.new ≡ self.old ++ call ∷ []) }
        ensures err { OnErr result (self.new ≡ self.old) }
    {
        self.calls.push(call)?;
        Ok(())
    }

    /// The calls, in order. Takes no memory.
    pub fn as_slice(&self) -> &[BestCall]
        ensures { result.now ≡ self.now }
    {
        self.calls.as_slice()
    }
}
