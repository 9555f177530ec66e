// The total of an output.
ghost use Rattle.std.specs.Prelude.{◌≡◌, ◌≤◌, nat_abs};
ghost use Rattle.numbers.specs.Total.{total_from};
ghost use Rattle.numbers.specs.Asked.{TermsFit};

// b + Σqw − VΣq − ZT + NZV. What is added and what is taken away are summed apart, since a 32-bit sum that starts
// from the bias less both corrections may leave its range on the way.
pub fn total(bias: i32, products: u32, bytes: u32, sum: u32, n: u32, z: u8, v: u8) -> i32
    requires terms_fit { TermsFit products bytes sum n }
    requires v_bound { nat_abs (total_from bias products bytes sum n z v) ≤ 2139111424 }
    ensures { result ≡ total_from bias products bytes sum n z v }
{
    let up = products + n * u32::from(z) * u32::from(v);
    let down = u32::from(v) * bytes + u32::from(z) * sum;
    (i64::from(bias) + i64::from(up) - i64::from(down)) as i32
}
