ghost use Rattle.std.specs.Prelude.{◌≡◌, ◌+◌, ◌<◌, ◌∷◌, codes, drop, IfSome};
ghost use Rattle.vc_generate.specs.Generated.{closing, opening};
ghost use Rattle.vc_generate.specs.Next.{IsNext};

use vc_base::{DictMethod, Name};
use vc_script::{Command, Tool};
use vc_seg::Method;

// The region, `r`.
pub(crate) fn region() -> Name
    ensures { result ≡ codes "r" }
{
    Name::new(b"r")
}

// The dictionary, `d`.
pub(crate) fn dict() -> Name
    ensures { result ≡ codes "d" }
{
    Name::new(b"d")
}

// The command at place `at` of the opening.
pub(crate) fn opening_command(tool: Tool, at: u8) -> Option<Command>
    ensures next { IsNext result (drop at (opening tool)) (drop (at + 1) (opening tool)) }
    ensures few { IfSome result (λ _. at < 2) }
{
    match (tool, at) {
        (_, 0) => Some(Command::OpenRegion(region(), Method::VmBest, 1)),
        (Tool::Dtrun, 1) => Some(Command::OpenDict(dict(), DictMethod::DtOset, region(), 1)),
        _ => None,
    }
}

// The command at place `at` of the closing.
pub(crate) fn closing_command(tool: Tool, at: u8) -> Option<Command>
    ensures next { IsNext result (drop at (closing tool)) (drop (at + 1) (closing tool)) }
    ensures few { IfSome result (λ _. at < 2) }
{
    match (tool, at) {
        (Tool::Vmreplay, 0) | (Tool::Dtrun, 1) => Some(Command::CloseRegion(region())),
        (Tool::Dtrun, 0) => Some(Command::Shut(dict())),
        _ => None,
    }
}
