// The single tests of a record's fields. Each answers nothing where it holds, else the refusal.
ghost use Rattle.std.specs.Prelude.{◌≡◌, ◌≤◌, length};
ghost use Rattle.refusals.specs.Refusal.{refusal_number, fault_of};
ghost use Rattle.fields.specs.Faults.{unless, within, shift_fault, multiplier_fault, bias_fault, clamp_fault, padding_fault, spare_fault, cut_fault};

use refusals::refusal::Refusal;

// The refusal unless the test holds.
pub fn unless(holds: bool, refusal: Refusal) -> Result<(), Refusal>
    ensures { fault_of result ≡ unless holds (refusal_number refusal) }
{
    if holds { Ok(()) } else { Err(refusal) }
}

// n bytes stand at a place.
#[tactic(auto, unfolding(crate::specs::Faults::cut_fault))]
pub fn cut_fault(s: &[u8], at: usize, n: usize) -> Result<(), Refusal>
    requires { at ≤ length s.now }
    ensures { fault_of result ≡ cut_fault s.now at n }
{
    unless(n <= s.len() - at, Refusal::Malformed)
}

// A spare is 0.
#[tactic(auto, unfolding(crate::specs::Faults::spare_fault))]
pub fn spare_fault(x: u8) -> Result<(), Refusal>
    ensures { fault_of result ≡ spare_fault x }
{
    unless(x == 0, Refusal::Malformed)
}

// A field from low to high.
#[tactic(auto, unfolding(crate::specs::Faults::within))]
pub fn within(low: u32, high: u32, x: u32) -> Result<(), Refusal>
    ensures { fault_of result ≡ within low high x }
{
    unless(low <= x && x <= high, Refusal::OutOfRange)
}

// A shift.
#[tactic(auto, unfolding(crate::specs::Faults::within))]
pub fn shift_fault(x: u8) -> Result<(), Refusal>
    ensures { fault_of result ≡ shift_fault x }
{
    match x {
        0..=31 => Ok(()),
        _ => Err(Refusal::OutOfRange),
    }
}

// A multiplier: from 2^30 to 2^31 - 1.
#[tactic(auto, unfolding(crate::specs::Faults::within))]
pub fn multiplier_fault(x: u32) -> Result<(), Refusal>
    ensures { fault_of result ≡ multiplier_fault x }
{
    match x {
        0x4000_0000..=0x7fff_ffff => Ok(()),
        _ => Err(Refusal::OutOfRange),
    }
}

// A bias: from -2^30 to 2^30.
#[tactic(auto, unfolding(crate::specs::Faults::bias_fault))]
pub fn bias_fault(b: i32) -> Result<(), Refusal>
    ensures { fault_of result ≡ bias_fault b }
{
    match b {
        -0x4000_0000..=0x4000_0000 => Ok(()),
        _ => Err(Refusal::OutOfRange),
    }
}

// The clamp's low is at most its high.
#[tactic(auto, unfolding(crate::specs::Faults::clamp_fault))]
pub fn clamp_fault(low: u8, high: u8) -> Result<(), Refusal>
    ensures { fault_of result ≡ clamp_fault low high }
{
    unless(low <= high, Refusal::OutOfRange)
}

// A padding is below both sides of its kernel.
#[tactic(auto, unfolding(crate::specs::Faults::padding_fault))]
pub fn padding_fault(p: u8, rows: u8, columns: u8) -> Result<(), Refusal>
    ensures { fault_of result ≡ padding_fault p rows columns }
{
    unless(p < rows && p < columns, Refusal::OutOfRange)
}
