// The output byte.
ghost use Rattle.std.specs.Prelude.{◌≡◌, ◌≤◌};
ghost use Rattle.numbers.specs.Finish.{finished};

// The rescaled number plus the output zero-point, held between low and high.
pub fn finish(rescaled: i32, zero: u8, low: u8, high: u8) -> u8
    requires { low ≤ high }
    ensures { result ≡ finished rescaled zero low high }
{
    let sum = i64::from(rescaled) + i64::from(zero);
    sum.clamp(i64::from(low), i64::from(high)) as u8
}
