ghost use Rattle.std.specs.Prelude.{◌≡◌, ◌≤◌, false, true};

// Whether a way down of so many nodes is left as it is, by whether one of at most that many may be.
#[inline(always)]
pub(crate) fn is_short(lazy: bool, read: u64, most: u64) -> bool
    ensures few { result ≡ true → read ≤ most }
    ensures lazy { lazy ≡ false → result ≡ false }
{
    lazy && read <= most
}
