ghost use Rattle.std.specs.Prelude.{◌≡◌, ℕ, None, Some};
ghost use Rattle.vc_dthash.specs.Slots.{slots_for, wanted_slots};

/// The slots of a first table: the least that two objects for each are enough for, at most 2,097,152.
pub fn slot_rows()
    ensures nothing { slots_for 0 ≡ 16 }
    ensures least { slots_for 32 ≡ 16 }
    ensures one_more { slots_for 33 ≡ 32 }
    ensures some { slots_for 1000 ≡ 512 }
    ensures last { slots_for 4194304 ≡ 2097152 }
    ensures beyond { slots_for 4294967296 ≡ 2097152 }
{}

/// The slots wanted before more objects are added: a first table, twice the slots, or none.
pub fn wanted_rows()
    ensures first { wanted_slots 0 0 1 ≡ Some 16 }
    ensures room { wanted_slots 16 31 1 ≡ None }
    ensures full { wanted_slots 16 32 1 ≡ Some 32 }
    ensures once { wanted_slots 16 0 1000 ≡ Some 32 }
    ensures last { wanted_slots 1048576 2097152 1 ≡ Some 2097152 }
    ensures no_more { wanted_slots 2097152 4194304 1 ≡ None }
{}
