// The biases and weights that follow a record's fixed part.
ghost use Rattle.std.specs.Prelude.{◌≡◌, ◌+◌, ◌*◌, ◌≤◌, length};
ghost use Rattle.refusals.specs.Refusal.{fault_of};
ghost use Rattle.fields.specs.Stored.{bias_faults, stored_len, stored_fault};

use crate::bytes::i32_at;
use crate::faults::{bias_fault, cut_fault};
use refusals::refusal::Refusal;

// Each bias is in its range.
pub fn bias_faults(s: &[u8], from: usize, count: usize) -> Result<(), Refusal>
    requires { from + 4 * count ≤ length s.now }
    ensures { fault_of result ≡ bias_faults s.now from count }
{
    for f in 0..count {
        bias_fault(i32_at(s, from + 4 * f))?;
    }
    Ok(())
}

// How many bytes the biases and the weights of n outputs take, w weights each.
pub fn stored_len(n: usize, w: usize) -> usize
    requires { (n ≤ 65535) × (w ≤ 16777216) }
    ensures { (result ≡ stored_len n w) × (result ≤ 2000000000000) }
{
    4 * n + n * w
}

// They are there, and then each bias is in its range.
#[tactic(auto, using(crate::proofs::Refusals::in_order), unfolding(crate::specs::Stored::stored_fault))]
pub fn stored_fault(s: &[u8], at: usize, n: usize, w: usize) -> Result<(), Refusal>
    requires at_in_bounds { at ≤ length s.now }
    requires n_bound { (n ≤ 65535) × (w ≤ 16777216) }
    ensures { fault_of result ≡ stored_fault s.now at n w }
{
    cut_fault(s, at, stored_len(n, w))?;
    bias_faults(s, at, n)
}
