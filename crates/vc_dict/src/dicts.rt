ghost use Rattle.std.specs.Borrow.{sem};
ghost use Rattle.std.specs.Prelude.{◌≡◌, ◌<◌, [], ◌∷◌, ◌++◌, IfErr, OnErr, OnOk, Some, length, slice_get};

use crate::Dict;
use std::alloc::Global;
use std::marker::Model;
use vc_base::OutOfMemory;

/// Dictionaries by number, from 0 on, in the order in which they were added. This project's own.
#[derive(Debug, Drop)]
pub struct Dicts {
    dicts: Vec<Dict>,
}

impl Model for Dicts {
    ghost use Rattle.std.specs.Prelude.{List};
    ghost use Rattle.vc_dict.specs.declared.dict.Dict.{Dict};

    ghost Value = { List Dict };

    ghost view = { λ d. d.dicts.items };
}

impl Dicts {
    ghost use Rattle.vc_dict.specs.Dicts.{LendsDict};

    /// No dictionaries. Takes no memory.
    pub fn new(alloc: Global) -> Dicts
        ensures { result ≡ [] }
    {
        Dicts {
            dicts: Vec::new(alloc),
        }
    }

    /// Puts a dictionary behind the others. Refused for want of memory alone: it is given back, and nothing changes.
    pub fn add(&mut self, dict: Dict) -> Result<(), (OutOfMemory, Dict)>
        ensures ok { OnOk result (self.new ≡ self.old ++ dict ∷ []) }
        ensures err { OnErr result (self.new ≡ self.old) }
        ensures back { IfErr result (λ fault. fault.1 ≡ dict) }
    {
        match self.dicts.push(dict) {
            Ok(()) => Ok(()),
            Err(refused) => Err((OutOfMemory, refused.value)),
        }
    }

    /// The dictionaries, in order. Takes no memory.
    pub fn as_slice(&self) -> &[Dict]
        ensures { result.now ≡ self.now }
    {
        self.dicts.as_slice()
    }

    /// The dictionary of that number, to work on. There are more than so many.
    pub fn dict_mut(&mut self, i: u32) -> &mut Dict
        requires { i < length self.old }
        ensures dict { slice_get self.old i ≡ Some result.now }
        ensures* writes_back { sem 𝓛 (LendsDict self.entry i result) }
    {
        &mut self.dicts[i as usize]
    }
}
