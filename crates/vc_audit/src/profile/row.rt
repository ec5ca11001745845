ghost use Rattle.std.specs.Prelude.{◌≡◌};
ghost use Rattle.vc_audit.specs.Profile.{row_at};
ghost use Rattle.vc_audit.specs.ProfileParts.{profile_of};

use crate::profile::Profile;
use vc_seg::ProfileRow;

impl Profile {
    /// The row of that index, from 0 on. The rows are those of the sites in order of first use. None behind the last.
    pub fn row(&self, i: u32) -> Option<ProfileRow>
        ensures { result ≡ row_at (profile_of self.now) i }
    {
        match self.rows.get_index(i as usize) {
            Some((site, row)) => Some(ProfileRow {
                site: *site,
                blocks: row.blocks,
                bytes: row.bytes,
                peak: row.peak,
            }),
            None => None,
        }
    }
}
