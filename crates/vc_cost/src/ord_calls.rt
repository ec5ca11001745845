ghost use Rattle.std.specs.Prelude.{◌≡◌, [], ◌∷◌, ◌++◌, OnOk, OnErr};

use crate::OrdCall;
use std::alloc::Global;
use std::marker::Model;
use vc_base::OutOfMemory;

/// A list of calls on an ordered set or bag.
#[derive(Debug, Drop)]
pub struct OrdCalls {
    calls: Vec<OrdCall>,
}

impl Model for OrdCalls {
    ghost use Rattle.std.specs.Prelude.{List};
    ghost use Rattle.vc_cost.specs.declared.ord_call.OrdCall.{OrdCall};

    ghost Value = { List OrdCall };

    ghost view = { λ c. c.calls.items };
}

impl OrdCalls {
    /// No calls. Takes no memory.
    pub fn new(alloc: Global) -> OrdCalls
        ensures { result ≡ [] }
    {
        OrdCalls {
            calls: Vec::new(alloc),
        }
    }

    /// Puts a call behind the others. Refused for want of memory alone, with nothing changed.
    pub fn add(&mut self, call: OrdCall) -> Result<(), OutOfMemory>
        ensures ok { OnOk result (self.new ≡ self.old ++ call ∷ []) }
        ensures err { OnErr result (self.new ≡ self.old) }
    {
        self.calls.push(call)?;
        Ok(())
    }

    /// The calls, in order. Takes no memory.
    pub fn as_slice(&self) -> &[OrdCall]
        ensures { result.now ≡ self.now }
    {
        self.calls.as_slice()
    }
}
