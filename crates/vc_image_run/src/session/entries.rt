ghost use Rattle.std.specs.Prelude.{◌≡◌, ◌<◌, ◌≤◌, ◌+◌, ◌++◌, ◌∷◌, [], false, is_some, length, map, IfOk, OnOk};
ghost use Rattle.std.specs.Str.{bytes_eq};
ghost use Rattle.std.specs.HashMap.{get};
ghost use Rattle.vc_image_run.specs.Session.Copies.{copy_of};
ghost use Rattle.vc_image_run.specs.Session.Entries.{entries_from, entry_of};
ghost use Rattle.vc_image_run.specs.Session.Names.{dict_name, region_name};

use crate::session::copies::copy_of;
use arrayvec::ArrayString;
use indexmap::IndexMap;
use itoa::Buffer;
use std::alloc::Global;
use vc_base::{Name, OutOfMemory};
use vc_commands::DictEntry;
use vc_dict::Dict;

// The name of the region.
pub(crate) fn region_name() -> Name
    ensures { result ≡ region_name }
{
    Name::new(b"r")
}

// The name of the dictionary of a number, from 1 on.
fn dict_name(n: u32) -> Name
    ensures { result ≡ dict_name n }
{
    let mut buffer = Buffer::new();
    let mut text = ArrayString::<16>::new();
    text.push_str("d");
    text.push_str(buffer.format(n));
    Name::new(text.as_str().as_bytes())
}

// Puts a copy of a dictionary behind the others, with that number on view paths.
fn add(entries: &mut IndexMap<Name, DictEntry>, i: u32, dict: &Dict) -> Result<(), OutOfMemory>
    requires few { i < 256 }
    requires new { is_some (get bytes_eq entries.old (dict_name (i + 1))) ≡ false }
    ensures { OnOk result (entries.new.entries
        ≡ entries.old.entries ++ entry_of i (copy_of dict.now) ∷ []) }
{
    entries.reserve(1)?;
    // There is room, so this takes no memory and cannot fail.
    let _ = entries.insert(
        dict_name(i + 1),
        DictEntry {
            home: region_name(),
            number: i,
            dict: copy_of(dict),
        },
    );
    Ok(())
}

// Copies of dictionaries under their names.
pub(crate) fn entries_of(
    alloc: Global,
    dicts: &[Dict],
) -> Result<IndexMap<Name, DictEntry>, OutOfMemory>
    requires few { length dicts.now ≤ 256 }
    ensures { IfOk result (λ entries. entries.entries ≡ entries_from 0 (map copy_of dicts.now)) }
{
    let mut entries = IndexMap::new(alloc);
    for i in 0..dicts.len() {
        match dicts.get(i) {
            Some(dict) => add(&mut entries, i as u32, dict)?,
            None => return Ok(entries),
        }
    }
    Ok(entries)
}
