// Words and numbers written into a slice, one after another.
ghost use Rattle.std.specs.Prelude.{◌≡◌, ◌+◌, ◌≤◌, ◌<◌, length};
ghost use Rattle.lines.specs.Listing.{decimal, column};
ghost use Rattle.lines.specs.Text.{Adds};

use lists::write::copy_in;

// Text at the front of a slice, and how long it is.
#[derive(Drop)]
pub struct Text<'a> {
    pub out: &'a mut [u8],
    pub length: usize,
}

impl Text<'_> {
    // Adds a word.
    pub fn word(&mut self, word: &[u8])
        requires { self.old.length + length word.now ≤ length self.old.out.now }
        ensures { Adds self.old word.now self.new }
    {
        let at = self.length;
        copy_in(word, self.out, at);
        self.length += word.len();
    }

    // Adds a number in decimal: the digits before the last one first. They are made by hand, since no clause of std says that a `Display`
    // written into a buffer succeeds.
    pub fn number(&mut self, n: usize)
        requires { (n < 100000) × (self.old.length + length (decimal n) ≤ length self.old.out.now) }
        ensures { Adds self.old (decimal n) self.new }
    {
        if n < 10 {
            return self.word(&[b'0' + n as u8]);
        }
        self.number(n / 10);
        self.word(&[b'0' + (n % 10) as u8]);
    }

    // Adds a space and a number.
    #[tactic(auto, using(crate::proofs::Texts::decimal_few))]
    pub fn column(&mut self, n: usize)
        requires { (n < 100000) × (self.old.length + 6 ≤ length self.old.out.now) }
        ensures written { Adds self.old (column n) self.new }
        ensures within { self.new.length ≤ self.old.length + 6 }
    {
        self.word(b" ");
        self.number(n);
    }
}
