// The outputs of a convolution or a full layer at one window.
ghost use Rattle.std.specs.Prelude.{◌≡◌, ◌+◌, ◌*◌, ◌^◌, ◌≤◌, ◌<◌, nat_abs, length};
ghost use Rattle.numbers.specs.Limits.{file_most, tensor_most};
ghost use Rattle.numbers.specs.Total.{sum, total_of};
ghost use Rattle.lists.specs.Lists.{pasted, part};
ghost use Rattle.lists.specs.Asked.{Apart};
ghost use Rattle.layers.specs.Asked.{OutputsReady};
ghost use Rattle.records.specs.Asked.{WeighingOk};
ghost use Rattle.layers.specs.Outputs.{outputs_for, byte_by, output_of, outputs_of};

use crate::stored::Stored;
use fields::bytes::i32_at;
use numbers::finish::finish;
use numbers::total::total;
use records::layer::Layer;
use records::weighing::Weighing;
use windows::dots::{byte_total, dot};

// How many outputs there are; where their biases and weights begin in the file and their sums in the store; z is the
// input's zero-point.
#[derive(Clone, Copy)]
pub struct Outputs {
    pub count: usize,
    pub biases: usize,
    pub weights: usize,
    pub sums: usize,
    pub z: u8,
    pub weighing: Weighing,
}

// What the outputs of a layer need, so many of them, with the input's zero-point z.
pub fn outputs_for(y: Layer, count: usize, weighing: Weighing, z: u8) -> Outputs
    requires { y.start ≤ file_most }
    ensures { result ≡ outputs_for y count weighing z }
{
    Outputs {
        count,
        biases: y.biases_at(),
        weights: y.weights_at(),
        sums: y.sums,
        z,
        weighing,
    }
}

impl Outputs {
    // One output byte, of a window q with the byte total Σq, and of an output's weights, bias and stored sum.
    fn output(self, q: &[u8], w: &[u8], bytes: u32, bias: i32, stored: u32) -> u8
        requires pairs { length q.now ≡ length w.now }
        requires few { length q.now ≤ tensor_most }
        requires total { bytes ≡ sum q.now }
        requires bias_small { nat_abs bias ≤ 2 ^ 30 }
        requires stored_small { stored ≤ 255 * length q.now }
        requires weighing { WeighingOk self.weighing }
        ensures { result ≡ byte_by self.weighing (total_of bias q.now w.now stored self.z self.weighing.v) }
    {
        let by = self.weighing;
        let a = total(bias, dot(q, w), bytes, stored, q.len() as u32, self.z, by.v);
        finish(by.scale.rescale(a), by.zero, by.low, by.high)
    }

    // Output f at the window q, whose byte total is worked out once for all outputs.
    fn output_at(self, stored: Stored<'_>, q: &[u8], bytes: u32, f: usize) -> u8
        requires ready { OutputsReady self (length q.now) stored.file.now stored.sums.now }
        requires one { f < self.count }
        requires total { bytes ≡ sum q.now }
        ensures { result ≡ output_of self stored.entry.file.now stored.entry.sums.now q.now f }
    {
        let n = q.len();
        let first = self.weights + f * n;
        let bias = i32_at(stored.file, self.biases + 4 * f);
        self.output(
            q,
            &stored.file[first..first + n],
            bytes,
            bias,
            stored.sums[self.sums + f],
        )
    }

    // The outputs at the window q, to area from at.
    pub fn put_outputs(self, stored: Stored<'_>, q: &[u8], area: &mut [u8], at: usize)
        requires ready { OutputsReady self (length q.now) stored.file.now stored.sums.now }
        requires room { at + self.count ≤ length area.old }
        ensures { area.new ≡ pasted area.old at (outputs_of self stored.entry.file.now stored.entry.sums.now q.now) }
    {
        let bytes = byte_total(q);
        for (f, byte) in area[at..at + self.count].iter_mut().enumerate() {
            *byte = self.output_at(stored, q, bytes, f);
        }
    }

    // The same at a window that stands in the area itself, n bytes from `from`, so that nothing is gathered.
    pub fn put_within(self, stored: Stored<'_>, area: &mut [u8], from: usize, n: usize, at: usize)
        requires ready { OutputsReady self n stored.file.now stored.sums.now }
        requires apart { Apart from n at self.count }
        requires window { from + n ≤ length area.old }
        requires room { at + self.count ≤ length area.old }
        ensures { area.new ≡ pasted area.old at (outputs_of self stored.entry.file.now stored.entry.sums.now (part area.old from n)) }
    {
        if from + n <= at {
            let (before, rest) = area.split_at_mut(at);
            self.put_outputs(stored, &before[from..from + n], rest, 0);
        } else {
            let (before, rest) = area.split_at_mut(from);
            self.put_outputs(stored, &rest[..n], before, at);
        }
    }
}
