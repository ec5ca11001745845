ghost use Rattle.std.specs.Prelude.{◌≡◌, ◌<◌, ◌^◌};
ghost use Rattle.vc_image_run.specs.Session.Copies.{copy_of};

use vc_dict::Dict;

/// A dictionary made of the numbers of another one. This project's own.
pub fn copy_of(dict: &Dict) -> Dict
    ensures same { result ≡ copy_of dict.now }
    ensures kind { result.kind < 2 ^ 32 }
{
    Dict::from_parts(
        dict.method,
        dict.kind,
        dict.count,
        dict.current,
        dict.heads(),
    )
}
