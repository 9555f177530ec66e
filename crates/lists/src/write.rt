// Writes into a part of a slice.
ghost use Rattle.std.specs.Prelude.{◌≡◌, ◌+◌, ◌≤◌, length, replicate};
ghost use Rattle.lists.specs.Lists.{pasted};

// Copies src into dst from at. A loop: `copy_from_slice` calls `memmove`, which the archives do not ask of a board, and is
// slower at the few bytes of a window's row.
pub fn copy_in(src: &[u8], dst: &mut [u8], at: usize)
    requires { at + length src.now ≤ length dst.old }
    ensures { dst.new ≡ pasted dst.old at src.now }
{
    for i in 0..src.len() {
        dst[at + i] = src[i];
    }
}

// Writes n bytes z into dst from at. A loop: `fill` is slower at the few bytes of a window's padding.
pub fn fill_in(dst: &mut [u8], at: usize, n: usize, z: u8)
    requires { at + n ≤ length dst.old }
    ensures { dst.new ≡ pasted dst.old at (replicate n z) }
{
    for i in 0..n {
        dst[at + i] = z;
    }
}
