// The sums of a layer's weights, into the sum store.
ghost use Rattle.std.specs.Prelude.{◌≡◌, ◌+◌, ◌*◌, ◌≤◌, length};
ghost use Rattle.numbers.specs.Limits.{file_most, tensor_most};
ghost use Rattle.fields.specs.Asked.{GoodShape};
ghost use Rattle.records.specs.Layer.{sums_of, terms_of, weights_at};
ghost use Rattle.lists.specs.Lists.{pasted};
ghost use Rattle.layers.specs.Sums.{layer_sums};

use records::layer::Layer;
use windows::dots::byte_total;

// The true sums of a layer, to their places in the store.
pub fn put_sums(y: Layer, file: &[u8], sums: &mut [u32])
    requires shape { GoodShape y.input }
    requires weights { weights_at y + sums_of y.kind * terms_of y.kind y.input ≤ length file.now }
    requires file_few { length file.now ≤ file_most }
    requires terms_few { terms_of y.kind y.input ≤ tensor_most }
    requires room { y.sums + sums_of y.kind ≤ length sums.old }
    ensures { sums.new ≡ pasted sums.old y.sums (layer_sums y file.now) }
{
    let n = y.terms();
    let weights = y.weights_at();
    let count = y.kind.sums();
    for (f, sum) in sums[y.sums..y.sums + count].iter_mut().enumerate() {
        let first = weights + f * n;
        *sum = byte_total(&file[first..first + n]);
    }
}
