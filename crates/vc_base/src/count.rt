ghost use Rattle.std.specs.Prelude.{◌≡◌};
ghost use Rattle.vc_model.specs.Count.{next_count};

/// One more than a count, which stays at the greatest u64 once there.
pub fn one_more(count: u64) -> u64
    ensures { result ≡ next_count count }
{
    count.saturating_add(1)
}
