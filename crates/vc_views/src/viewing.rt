ghost use Rattle.std.specs.Prelude.{◌≡◌, Some, IfErr, IfOk, map};
ghost use Rattle.std.specs.Result.{result_err};
ghost use Rattle.vc_dtdisc.specs.Rules.{Rules};
ghost use Rattle.vc_paths.specs.Links.{links_with};
ghost use Rattle.vc_paths.specs.Path.{IsPath};
ghost use Rattle.vc_paths.specs.View.{view_fault};
ghost use Rattle.vc_views.specs.Promises.{layered_over};

use crate::layers::DictLayers;
use indexmap::IndexMap;
use vc_base::Name;
use vc_commands::{DictEntry, HomeEntry};
use vc_dtdisc::DictDisc;
use vc_paths::{Paths, ViewFault};

/// Lets the dictionary of a number view that of another one, as `Paths` does. Neither a region nor a dictionary changes.
/// This project's own.
pub fn view_at<D: DictDisc>(
    homes: &mut IndexMap<Name, HomeEntry>,
    dicts: &mut IndexMap<Name, DictEntry>,
    kinds: &Vec<D>,
    paths: &mut Paths,
    d: u32,
    e: u32,
) -> Result<(), ViewFault>
    requires first { IsPath (layered_over (map D.rules kinds.now.items)
        homes.old.entries dicts.old.entries) paths.old d }
    requires second { IsPath (layered_over (map D.rules kinds.now.items)
        homes.old.entries dicts.old.entries) paths.old e }
    ensures fault { result_err result ≡ view_fault (layered_over (map D.rules kinds.now.items)
        homes.old.entries dicts.old.entries) paths.old d e }
    ensures ok { IfOk result (λ _. paths.new ≡ links_with d (Some e) paths.old) }
    ensures err { IfErr result (λ _. paths.new ≡ paths.old) }
    ensures homes { homes.new ≡ homes.old }
    ensures dicts { dicts.new ≡ dicts.old }
{
    let layers = DictLayers {
        homes,
        near: 0,
        dicts,
        kinds,
    };
    paths.view(&layers, d, e)
}
