// The two steps of an add.
ghost use Rattle.std.specs.Prelude.{◌≡◌, ◌^◌, ◌≤◌, ◌<◌, nat_abs};
ghost use Rattle.numbers.specs.Addition.{offset, summed};

use crate::rescale::Scale;

// (q − zero) × 2^20, rescaled by its own scale.
pub fn offset_of(q: u8, zero: u8, by: Scale) -> i32
    requires { (by.multiplier < 2 ^ 31) × (by.shift < 32) }
    ensures { result ≡ offset q zero by.multiplier by.shift }
{
    by.rescale((i32::from(q) - i32::from(zero)) * 1048576)
}

// The sum of the two rescaled numbers, rescaled by the third scale.
pub fn summed_of(first: i32, second: i32, by: Scale) -> i32
    requires first_bound { (nat_abs first ≤ 2 ^ 28) × (nat_abs second ≤ 2 ^ 28) }
    requires multiplier_bound { (by.multiplier < 2 ^ 31) × (by.shift < 32) }
    ensures { result ≡ summed first second by.multiplier by.shift }
{
    by.rescale(first + second)
}
