ghost use Rattle.std.specs.Prelude.{◌≡◌, ℕ, ◌+◌, ◌*◌, ◌<◌, ◌^◌, SomeIff};
ghost use Rattle.vc_splay.specs.Rank.{binary_digits};

/// The most steps that so many calls take: for each call `per` for each binary digit of the greatest number of nodes, and
/// `plus`. The number 0 has no binary digits. None exactly where that is above the greatest u64.
pub fn bound(calls: u64, greatest: u64, per: u64, plus: u64) -> Option<u64>
    ensures { SomeIff result (calls * (per * binary_digits greatest + plus) < 2 ^ 64)
        (calls * (per * binary_digits greatest + plus)) }
{
    if calls == 0 {
        return Some(0);
    }
    let each = per.checked_mul(digits_in(greatest))?.checked_add(plus)?;
    calls.checked_mul(each)
}

// How many binary digits a number has; 0 has none.
fn digits_in(n: u64) -> u64
    ensures { result ≡ binary_digits n }
{
    let zeros = n.leading_zeros();
    let digits = 64 - zeros;
    u64::from(digits)
}
