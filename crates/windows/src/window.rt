// A window gathered from a tensor into a patch.
ghost use Rattle.std.specs.Prelude.{◌≡◌, ◌+◌, ◌-◌, ◌*◌, ◌≤◌, ◌<◌, length};
ghost use Rattle.lists.specs.Lists.{pasted};
ghost use Rattle.windows.specs.Asked.{SmallWindow, Lies, size_of, window_bytes};
ghost use Rattle.windows.specs.Window.{strip_of, window_of};

use lists::write::{copy_in, fill_in};

// The input tensor's shape and zero-point, the kernel's sides, and the rows and columns of padding above and to the left.
// `SmallWindow` is no fact of the type: the definition of a convolution's row makes a window of any shape and frame.
#[derive(Clone, Copy)]
pub struct Window {
    pub rows: usize,
    pub columns: usize,
    pub channels: usize,
    pub zero: u8,
    pub height: usize,
    pub width: usize,
    pub top: usize,
    pub left: usize,
}

// How a row of a window lies across the tensor, in bytes: lead before it, then those from `from` up to `to` of the
// tensor, then tail after it.
#[derive(Drop)]
struct Strip {
    lead: usize,
    from: usize,
    to: usize,
    tail: usize,
}

impl Window {
    // The strip at row r of the tensor, from column q of the padded tensor.
    fn strip_at(self, r: usize, q: usize) -> Strip
        requires small { SmallWindow self }
        requires row { r < self.rows }
        requires column { q ≤ self.columns + self.left }
        ensures { Lies self r q result }
    {
        let first = self.left.saturating_sub(q);
        let stop = self.width.min(self.columns + self.left - q);
        let from = (r * self.columns + q.saturating_sub(self.left)) * self.channels;
        Strip {
            lead: first * self.channels,
            from,
            to: from + (stop - first) * self.channels,
            tail: (self.width - stop) * self.channels,
        }
    }

    // One row of a window, from row p, column q of the padded tensor, to patch from at.
    fn put_strip(self, t: &[u8], patch: &mut [u8], at: usize, p: usize, q: usize)
        requires small { SmallWindow self }
        requires whole { length t.now ≡ size_of self }
        requires column { q ≤ self.columns + self.left }
        requires room { at + self.width * self.channels ≤ length patch.old }
        ensures { patch.new ≡ pasted patch.old at (strip_of self t.now p q) }
    {
        // Two tests, since one by `||` is slower.
        if p < self.top {
            fill_in(patch, at, self.width * self.channels, self.zero);
            return;
        }
        if self.rows <= p - self.top {
            fill_in(patch, at, self.width * self.channels, self.zero);
            return;
        }
        let strip = self.strip_at(p - self.top, q);
        let start = at + strip.lead;
        let end = start + (strip.to - strip.from);
        fill_in(patch, at, strip.lead, self.zero);
        copy_in(&t[strip.from..strip.to], patch, start);
        fill_in(patch, end, strip.tail, self.zero);
    }

    // The window from row p, column q of the padded tensor, to the front of patch.
    pub fn gather(self, t: &[u8], patch: &mut [u8], p: usize, q: usize)
        requires small { SmallWindow self }
        requires whole { length t.now ≡ size_of self }
        requires row { p ≤ 131072 }
        requires column { q ≤ self.columns + self.left }
        requires room { window_bytes self ≤ length patch.old }
        ensures { patch.new ≡ pasted patch.old 0 (window_of self t.now p q) }
    {
        let row = self.width * self.channels;
        // Summed, since a product each turn is slower.
        let mut at = 0;
        for a in 0..self.height {
            self.put_strip(t, patch, at, p + a, q);
            at += row;
        }
    }
}
