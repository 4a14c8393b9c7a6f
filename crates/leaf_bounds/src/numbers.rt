//! Numbers of a line with a sign.
ghost use Rattle.std.specs.Prelude.{◌≡◌, ◌≤◌, ◌^◌, pos};

/// The number with a sign.
pub fn signed(number: u128) -> i128
    requires { number ≤ 2 ^ 118 }
    ensures { result ≡ pos number }
{
    number as i128
}
