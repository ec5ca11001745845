use vc_base::OutOfMemory;
use vc_image_check::Part;
use vc_script::LineFault;
use vc_session::Stop;

/// Why no image is made of what a script leaves. This project's own.
#[derive(Clone, Copy, Debug, PartialEq, Eq)]
pub enum ScriptFault {
    /// Something is wrong with the line of that number, from 1 on. The lines before it were run.
    Line(u32, LineFault),
    /// A read of the script failed. The lines before that were run.
    Read,
    /// A write of the replies failed.
    Write,
    /// Want of memory, while the script is run or behind it.
    Memory,
    /// The script leaves no region open.
    NoRegion,
    /// The first region that it leaves open isn't one of the method best.
    WrongMethod,
    /// That part of the image isn't sound. It is the first one.
    Unsound(Part),
}

impl From<OutOfMemory> for ScriptFault {
    ghost use Rattle.std.specs.Prelude.{◌≡◌};
    ghost use Rattle.vc_image_run.specs.declared.script.fault.ScriptFault.TheVariants.{Memory};

    ghost from_gives = { λ _ fault. fault ≡ Memory };

    fn from(_: OutOfMemory) -> ScriptFault {
        ScriptFault::Memory
    }
}

impl From<Stop> for ScriptFault {
    ghost use Rattle.std.specs.Prelude.{◌≡◌};
    ghost use Rattle.vc_image_run.specs.Script.Promises.{script_fault_of};

    ghost from_gives = { λ stop fault. fault ≡ script_fault_of stop };

    fn from(stop: Stop) -> ScriptFault {
        match stop {
            Stop::Read => ScriptFault::Read,
            Stop::Write => ScriptFault::Write,
            Stop::Memory => ScriptFault::Memory,
        }
    }
}
