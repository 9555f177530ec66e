// A total rescaled by a multiplier and a shift, with its two roundings.
ghost use Rattle.std.specs.Prelude.{◌≡◌, ◌^◌, ◌<◌};
ghost use Rattle.numbers.specs.Rescale.{nearest, high, rescaled};

// A multiplier and a shift, by which a total is rescaled. That they are in range is no fact of the type: a record's are read before they
// are tested.
#[derive(Clone, Copy, Debug, PartialEq, Eq)]
pub struct Scale {
    pub multiplier: u32,
    pub shift: u8,
}

impl Scale {
    // The total rescaled: first the high multiplication, then the division by 2^shift.
    pub fn rescale(self, total: i32) -> i32
        requires { (self.multiplier < 2 ^ 31) × (self.shift < 32) }
        ensures { result ≡ rescaled total self.multiplier self.shift }
    {
        nearest_part(high_part(total, self.multiplier), self.shift)
    }
}

// floor((total × multiplier + 2^30) / 2^31): a shift of a signed number rounds down.
fn high_part(total: i32, multiplier: u32) -> i32
    requires { multiplier < 2 ^ 31 }
    ensures { result ≡ high total multiplier }
{
    ((i64::from(total) * i64::from(multiplier) + 0x4000_0000) >> 31) as i32
}

// z / 2^shift to the nearest whole, a half going away from zero: rounded down, and one more where the rest is half of
// 2^shift or more, for a z below zero more than half. `most` is the largest rest that adds nothing.
fn nearest_part(z: i32, shift: u8) -> i32
    requires { shift < 32 }
    ensures { result ≡ nearest z (2 ^ shift) }
{
    let mask = ((1u32 << shift) - 1) as i32;
    let rest = z & mask;
    let most = (mask >> 1) + i32::from(z < 0);
    (z >> shift) + i32::from(most < rest)
}
