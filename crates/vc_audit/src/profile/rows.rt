ghost use Rattle.std.specs.Prelude.{◌≡◌, ◌+◌, ◌-◌, ◌<◌, ◌≤◌, length, max};
ghost use Rattle.std.specs.Str.{bytes_eq};
ghost use Rattle.indexmap.specs.IndexMap.{insert_entry, set_value_at, spare};
ghost use Rattle.vc_audit.specs.ProfileSums.{IsRowAt, clear_at, cleared_rows, index_for, row_for};

use indexmap::IndexMap;
use vc_base::Name;

/// What is counted for a site.
#[derive(Clone, Copy)]
pub struct Row {
    pub blocks: u64,
    pub bytes: u64,
    pub peak: u64,
}

impl Row {
    // With other blocks and bytes, of which the peak takes note.
    pub(crate) fn with(self, blocks: u64, bytes: u64) -> Row
        ensures blocks { result.blocks ≡ blocks }
        ensures bytes { result.bytes ≡ bytes }
        ensures peak { result.peak ≡ max self.peak bytes }
    {
        Row {
            blocks,
            bytes,
            peak: self.peak.max(bytes),
        }
    }
}

// The row of a site, which is a new one where it has none.
pub(crate) fn row_for(rows: &IndexMap<Name, Row>, site: &Name) -> Row
    ensures { result ≡ row_for site.now rows.now.entries }
{
    match rows.get_index_of(site) {
        Some(i) => rows[i],
        None => Row {
            blocks: 0,
            bytes: 0,
            peak: 0,
        },
    }
}

// Puts the row of a site, for which there is room, and answers its index.
pub(crate) fn put_row(rows: &mut IndexMap<Name, Row>, site: Name, row: Row) -> usize
    requires { 0 < spare rows.old }
    ensures entries { rows.new.entries ≡ insert_entry bytes_eq rows.old.entries site row }
    ensures index { result ≡ index_for site rows.old.entries }
    ensures within { result ≤ length rows.old.entries }
{
    match rows.insert_full(site, row) {
        Ok((i, _)) => i,
        Err(_) => unreachable!(),
    }
}

// The row of that index.
pub(crate) fn row_at(rows: &IndexMap<Name, Row>, i: usize) -> Row
    requires { i < length rows.now.entries }
    ensures { IsRowAt rows.now.entries i result }
{
    rows[i]
}

// Puts the row of that index.
pub(crate) fn set_row(rows: &mut IndexMap<Name, Row>, i: usize, row: Row)
    requires { i < length rows.old.entries }
    ensures { rows.new.entries ≡ set_value_at rows.old.entries i row }
{
    rows[i] = row;
}

// Leaves no blocks and no bytes in the row of that index.
fn clear_row(rows: &mut IndexMap<Name, Row>, i: usize)
    requires { i < length rows.old.entries }
    ensures entries { rows.new.entries ≡ clear_at i rows.old.entries }
    ensures len { length rows.new.entries ≡ length rows.old.entries }
{
    rows[i] = Row {
        blocks: 0,
        bytes: 0,
        peak: rows[i].peak,
    };
}

// Leaves no blocks and no bytes in any row.
pub(crate) fn clear_rows(rows: &mut IndexMap<Name, Row>)
    ensures { rows.new.entries ≡ cleared_rows rows.old.entries }
{
    for i in 0..rows.len() {
        clear_row(rows, i);
    }
}
