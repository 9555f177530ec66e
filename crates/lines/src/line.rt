// The lines of the listing.
ghost use Rattle.std.specs.Prelude.{◌≡◌, ◌+◌, ◌≤◌, ◌<◌, length};
ghost use Rattle.numbers.specs.Asked.{channels_most};
ghost use Rattle.refusals.specs.Refusal.{refusal_number};
ghost use Rattle.fields.specs.Asked.{GoodShape};
ghost use Rattle.records.specs.Layer.{sums_of};
ghost use Rattle.network.specs.Taken.{Taken};
ghost use Rattle.lists.specs.Lists.{pasted};
ghost use Rattle.lines.specs.Listing.{line_of, word_of, table_of, refused_line, listing_of};
ghost use Rattle.lines.specs.Text.{Adds};

use crate::text::Text;
use fields::shape::Shape;
use network::file::decode;
use network::net::Network;
use records::layer::Kind;
use refusals::refusal::Refusal;

impl Text<'_> {
    // Adds the line of a tensor.
    #[tactic(auto, using(crate::proofs::Texts::decimal_few))]
    fn line(&mut self, tensor: usize, word: &[u8], shape: Shape, sums: usize)
        requires good_shape { GoodShape shape }
        requires in_range { (tensor ≤ 16) × (sums ≤ channels_most) × (length word.now ≤ 7) × (self.old.length + 45 ≤ length self.old.out.now) }
        ensures written { Adds self.old (line_of tensor word.now shape sums) self.new }
        ensures within { self.new.length ≤ self.old.length + 45 }
    {
        self.number(tensor);
        self.word(b" ");
        self.word(word);
        self.column(shape.rows);
        self.column(shape.columns);
        self.column(shape.channels);
        self.column(shape.bytes());
        self.column(sums);
        self.word(b"\n");
    }

    // Adds the line of what a layer makes.
    fn layer_line(&mut self, tensor: usize, kind: Kind, shape: Shape)
        requires good_shape { GoodShape shape }
        requires in_range { (tensor ≤ 16) × (sums_of kind ≤ channels_most) × (self.old.length + 45 ≤ length self.old.out.now) }
        ensures written { Adds self.old (line_of tensor (word_of kind) shape (sums_of kind)) self.new }
        ensures within { self.new.length ≤ self.old.length + 45 }
    {
        let sums = kind.sums();
        match kind {
            Kind::Conv(_) => self.line(tensor, b"conv", shape, sums),
            Kind::Full(_) => self.line(tensor, b"full", shape, sums),
            Kind::Add(_) => self.line(tensor, b"add", shape, sums),
        }
    }

    // Adds the heading, the picture's line, and a line for each layer.
    fn table(&mut self, file: &[u8], network: &Network)
        requires taken { Taken file.now network.now }
        requires room { self.old.length + 1024 ≤ length self.old.out.now }
        ensures written { Adds self.old (table_of network.now) self.new }
        ensures within { self.new.length ≤ self.old.length + 1024 }
    {
        self.word(b"tensor kind rows columns channels bytes sums\n");
        self.line(0, b"picture", network.picture, 0);
        for m in 0..network.count {
            let layer = network.layer(m);
            self.layer_line(m + 1, layer.kind, layer.output);
        }
    }

    // Adds the line of a refused file.
    fn refusal(&mut self, refusal: Refusal)
        requires { self.old.length + 14 ≤ length self.old.out.now }
        ensures written { Adds self.old (refused_line (refusal_number refusal)) self.new }
        ensures within { self.new.length ≤ self.old.length + 14 }
    {
        self.word(b"refused");
        self.column(usize::from(u8::from(refusal)));
        self.word(b"\n");
    }
}

// The listing of a file, to the front of out, and how long it is.
pub fn list(file: &[u8], out: &mut [u8]) -> usize
    requires { 1024 ≤ length out.old }
    ensures written { (result ≡ length (listing_of file.now)) × (out.new ≡ pasted out.old 0 (listing_of file.now)) }
    ensures within { result ≤ 1024 }
{
    let mut text = Text { out, length: 0 };
    match decode(file) {
        Ok(network) => {
            text.table(file, &network);
            text.length
        }
        Err(refusal) => {
            text.refusal(refusal);
            text.length
        }
    }
}
