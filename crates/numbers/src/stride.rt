// A length in strides, without a division, for which some processors need a routine.
ghost use Rattle.std.specs.Prelude.{◌≡◌, ◌+◌, ◌-◌, ◌/◌, ◌^◌, ◌≤◌, ◌<◌};

// 2^17 / stride, rounded up.
fn inverse(stride: usize) -> u32
    requires { (0 < stride) × (stride ≤ 4) }
    ensures { result ≡ (2 ^ 17 + stride - 1) / stride }
{
    match stride {
        1 => 131072,
        2 => 65536,
        3 => 43691,
        _ => 32768,
    }
}

// length / stride, rounded down. That the inverse was rounded up does not show in so short a length.
pub fn strides_in(length: usize, stride: usize) -> usize
    requires { (length < 2 ^ 15) × (0 < stride) × (stride ≤ 4) }
    ensures { result ≡ length / stride }
{
    ((length as u32 * inverse(stride)) >> 17) as usize
}
