// The row of a full layer.
ghost use Rattle.std.specs.Prelude.{◌≡◌, length};
ghost use Rattle.lists.specs.Lists.{pasted};
ghost use Rattle.layers.specs.Full.{full_row};
ghost use Rattle.layers.specs.Asked.{FullReady, Placed};
ghost use Rattle.layers.specs.Row.{tensor_at};

use crate::outputs::outputs_for;
use crate::source::Source;
use crate::stored::Stored;
use records::full::Full;
use records::layer::Layer;

// The one row of a full layer, whose window is the whole tensor that stands in the area, to its place.
pub fn full_row(y: Layer, f: Full, stored: Stored<'_>, area: &mut [u8], source: Source)
    requires ready { FullReady y f stored.file.now stored.sums.now }
    requires placed { Placed y (length area.old) source.from }
    ensures { area.new ≡ pasted area.old y.place (full_row y f source.zero stored.entry.file.now stored.entry.sums.now (tensor_at area.old source.from y.input)) }
{
    let o = outputs_for(y, usize::from(f.outputs), f.weighing, source.zero);
    o.put_within(stored, area, source.from, y.input.bytes(), y.place);
}
