// The head: mark 4E 48, 10 bytes.
ghost use Rattle.std.specs.Prelude.{◌≡◌, ◌≤◌, length};
ghost use Rattle.refusals.specs.Refusal.{fault_of};
ghost use Rattle.fields.specs.Asked.{SmallShape};
ghost use Rattle.network.specs.Head.{picture_at, head_fault};

use fields::bytes::u16_at;
use fields::faults::{cut_fault, spare_fault, unless, within};
use fields::shape::Shape;
use records::mark::is_mark;
use refusals::refusal::Refusal;

// The shape of the picture.
#[tactic(auto, unfolding(crate::specs::Head::picture_at))]
pub fn picture_at(s: &[u8]) -> Shape
    requires { 10 ≤ length s.now }
    ensures { (result ≡ picture_at s.now) × SmallShape result }
{
    Shape {
        rows: usize::from(u16_at(s, 2)),
        columns: usize::from(u16_at(s, 4)),
        channels: usize::from(s[6]),
    }
}

// Present, mark, spare, fields in file order, shape.
#[tactic(auto, using(fields::proofs::Refusals::in_order, fields::proofs::Tests::cut_there), unfolding(crate::specs::Head::head_fault, crate::specs::Head::head_mark))]
pub fn head_fault(s: &[u8]) -> Result<(), Refusal>
    ensures { fault_of result ≡ head_fault s.now }
{
    cut_fault(s, 0, 10)?;
    unless(is_mark(s, 0, b"NH"), Refusal::Malformed)?;
    spare_fault(s[9])?;
    within(1, 256, u32::from(u16_at(s, 2)))?;
    within(1, 256, u32::from(u16_at(s, 4)))?;
    within(1, 64, u32::from(s[6]))?;
    within(1, 16, u32::from(s[8]))?;
    picture_at(s).size_fault(0)
}
