// The two-byte mark before each record, and the table by it.
ghost use Rattle.std.specs.Prelude.{◌≡◌, ◌+◌, ◌≤◌, length, get_or};
ghost use Rattle.records.specs.Mark.{is_mark, mark_at, fixed_len, agreeing};

// Which layer's record a mark begins. `Other` is no None: the definitions say what a record with it is, and the theorem on their order ranges over it.
#[derive(Clone, Copy, Debug, PartialEq, Eq)]
pub enum Mark {
    CV,
    FU,
    AD,
    Other,
}

// Whether the mark m stands at a place.
#[tactic(auto, unfolding(crate::specs::Mark::is_mark))]
pub fn is_mark(s: &[u8], at: usize, m: &[u8; 2]) -> bool
    requires { at + 2 ≤ length s.now }
    ensures { result ≡ is_mark s.now at (get_or m.now 0 0) (get_or m.now 1 0) }
{
    s[at..at + 2] == m[..]
}

// The mark at a place, Other where it is cut or unknown.
pub fn mark_at(s: &[u8], at: usize) -> Mark
    requires { at ≤ length s.now }
    ensures { result ≡ mark_at s.now at }
{
    if s.len() - at < 2 {
        return Mark::Other;
    }
    if is_mark(s, at, b"CV") {
        return Mark::CV;
    }
    if is_mark(s, at, b"FU") {
        return Mark::FU;
    }
    if is_mark(s, at, b"AD") {
        return Mark::AD;
    }
    Mark::Other
}

impl Mark {
    // How many bytes of a record stand before its biases.
    pub fn fixed_len(self) -> usize
        ensures { result ≡ fixed_len self }
    {
        match self {
            Mark::CV => 16,
            Mark::FU => 14,
            Mark::AD => 22,
            Mark::Other => 2,
        }
    }

    // How many first bytes of a record its replacement shares.
    pub fn agreeing(self) -> usize
        ensures { result ≡ agreeing self }
    {
        match self {
            Mark::CV => 7,
            Mark::FU => 4,
            Mark::AD => 3,
            Mark::Other => 2,
        }
    }
}
