// Σq and Σqw of a window.
ghost use Rattle.std.specs.Prelude.{◌≡◌, ◌+◌, ◌*◌, ◌≤◌, ◌<◌, ◌^◌, length, sum_by};
ghost use Rattle.std.specs.List.{zip};
ghost use Rattle.numbers.specs.Limits.{tensor_most};
ghost use Rattle.numbers.specs.Total.{sum, dot as dot_of};

// Σqw of two slices of one length.
fn block(q: &[u8], w: &[u8]) -> u32
    requires pairs { length q.now ≡ length w.now }
    requires few { length q.now ≤ tensor_most }
    ensures value { result ≡ dot_of q.now w.now }
    ensures bound { result ≤ 65025 * length q.now }
{
    q.iter()
        .zip(w)
        .map(|(x, y)| u32::from(*x) * u32::from(*y))
        .sum()
}

// Σqw of blocks of one length.
fn blocks<const N: usize>(q: &[[u8; N]], w: &[[u8; N]]) -> u32
    requires few { N ≤ tensor_most }
    requires fits { sum_by (λ p. dot_of p.0 p.1) (zip q.now w.now) < 2 ^ 32 }
    ensures { result ≡ sum_by (λ p. dot_of p.0 p.1) (zip q.now w.now) }
{
    let mut sum = 0;
    for (x, y) in q.iter().zip(w) {
        sum += block(x, y);
    }
    sum
}

// Σqw. Blocks of 32 and of 8 have a fixed length, which the compiler turns into packed multiply-adds.
pub fn dot(q: &[u8], w: &[u8]) -> u32
    requires pairs { length q.now ≡ length w.now }
    requires few { length q.now ≤ tensor_most }
    ensures value { result ≡ dot_of q.now w.now }
    ensures bound { result ≤ 1065369600 }
{
    // So that the compiler sees that both have one length.
    let w = &w[..q.len()];
    let (long_q, q) = q.as_chunks::<32>();
    let (long_w, w) = w.as_chunks::<32>();
    let (short_q, q) = q.as_chunks::<8>();
    let (short_w, w) = w.as_chunks::<8>();
    let long = blocks(long_q, long_w);
    let short = blocks(short_q, short_w);
    long + short + block(q, w)
}

// Σq. A loop, since `map` and `sum` take a cycle longer, which shows at a small kernel.
pub fn byte_total(q: &[u8]) -> u32
    requires { length q.now ≤ tensor_most }
    ensures value { result ≡ sum q.now }
    ensures bound { result ≤ 4177920 }
{
    let mut sum = 0;
    for x in q {
        sum += u32::from(*x);
    }
    sum
}
