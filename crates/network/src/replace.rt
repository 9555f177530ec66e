// Test 9: a record that is to replace the one of a layer in place.
ghost use Rattle.std.specs.Prelude.{◌≡◌, ◌+◌, ◌≤◌, length};
ghost use Rattle.refusals.specs.Refusal.{fault_of};
ghost use Rattle.fields.specs.Asked.{GoodShape};
ghost use Rattle.records.specs.Layer.{record_len};
ghost use Rattle.network.specs.Replace.{agree, replace_fault};

use fields::faults::unless;
use records::layer::Layer;
use records::reader::record_fault;
use refusals::refusal::Refusal;

// Whether the first n bytes of the record are those of the file from `at`.
fn agrees(file: &[u8], at: usize, new: &[u8], n: usize) -> bool
    requires { (at + n ≤ length file.now) × (n ≤ length new.now) }
    ensures { result ≡ agree file.now at new.now n }
{
    file[at..at + n] == new[..n]
}

// Test 9, of a record for the layer y.
pub fn replace_fault(file: &[u8], y: Layer, new: &[u8]) -> Result<(), Refusal>
    requires good_shape { GoodShape y.input }
    requires y_in_bounds { y.start + record_len y ≤ length file.now }
    ensures { fault_of result ≡ replace_fault file.now y new.now }
{
    unless(new.len() == y.record_len(), Refusal::BadRecord)?;
    unless(
        agrees(file, y.start, new, y.mark.agreeing()),
        Refusal::BadRecord,
    )?;
    let record = record_fault(y.mark, new, y.kind.sums());
    unless(record.is_ok(), Refusal::BadRecord)
}
