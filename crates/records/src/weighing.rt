// What a convolution and a full layer have in common.
ghost use Rattle.std.specs.Prelude.{◌≡◌, ◌+◌, ◌≤◌, length};
ghost use Rattle.refusals.specs.Refusal.{fault_of};
ghost use Rattle.records.specs.Weighing.{weighing_at, weighing_fields};

use fields::bytes::u32_at;
use fields::faults::{clamp_fault, multiplier_fault, shift_fault};
use numbers::rescale::Scale;
use refusals::refusal::Refusal;

// v is the weight zero-point and zero the output's.
#[derive(Clone, Copy, Debug, PartialEq, Eq)]
pub struct Weighing {
    pub v: u8,
    pub zero: u8,
    pub low: u8,
    pub high: u8,
    pub scale: Scale,
}

// The fields that stand from a place on, and the multiplier at its own.
pub fn weighing_at(s: &[u8], from: usize, multiplier: usize) -> Weighing
    requires { (from + 5 ≤ length s.now) × (multiplier + 4 ≤ length s.now) }
    ensures { result ≡ weighing_at s.now from multiplier }
{
    Weighing {
        v: s[from],
        zero: s[from + 1],
        low: s[from + 2],
        high: s[from + 3],
        scale: Scale {
            multiplier: u32_at(s, multiplier),
            shift: s[from + 4],
        },
    }
}

impl Weighing {
    // The fields in file order.
    #[tactic(auto, using(fields::proofs::Refusals::in_order))]
    pub fn check(self) -> Result<(), Refusal>
        ensures { fault_of result ≡ weighing_fields self }
    {
        clamp_fault(self.low, self.high)?;
        shift_fault(self.scale.shift)?;
        multiplier_fault(self.scale.multiplier)
    }
}
