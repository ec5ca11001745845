ghost use Rattle.std.specs.Prelude.{◌≡◌, ℕ, ◌+◌, ◌≤◌};
ghost use Rattle.vc_base.specs.Prelude.{span};
ghost use Rattle.vc_model.specs.Segments.{round_up};

/// The number, rounded up to a multiple of the unit.
pub fn rounded_up(number: u32, unit: u32) -> u32
    requires unit { 1 ≤ unit }
    requires fits { number + unit ≤ 4294967296 }
    ensures { result ≡ round_up number unit }
{
    unit * ((number + (unit - 1)) / unit)
}

/// The bytes that a block of this size takes with a head of 16 bytes, a multiple of 32.
pub fn span_of(size: u32) -> u32
    requires { size ≤ 33554432 }
    ensures { result ≡ span size }
{
    rounded_up(size + 16, 32)
}
