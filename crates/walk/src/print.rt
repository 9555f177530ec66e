// What the program writes: the morning on standard output, and on standard error what stops it. What cannot be written is left out.
use refusals::refusal::Refusal;
use std::fmt::InlineText;
use std::rt::{Stderr, Stdout};
use std::{fmt, io};

// Standard output and standard error.
#[derive(Drop)]
pub struct Output {
    pub out: Stdout,
    pub err: Stderr,
}

// The calls that a line is about.
#[derive(Clone, Copy)]
pub enum Call {
    Sizes,
    Load,
    ChangeRows,
    ReplaceLayer,
    Update,
    Read,
}

// A call that refused, and why.
#[derive(Clone, Copy)]
pub struct Refused {
    pub call: Call,
    pub why: Refusal,
}

// A call's name.
impl fmt::Display for Call {
    fn fmt<W: fmt::Write>(&self, f: &mut fmt::Formatter<W>) -> fmt::Result {
        f.write_str(match self {
            Call::Sizes => "sizes",
            Call::Load => "load",
            Call::ChangeRows => "change rows",
            Call::ReplaceLayer => "replace layer",
            Call::Update => "update",
            Call::Read => "reading",
        })
    }
}

// A call that was taken.
pub fn taken(to: &Output, call: Call) {
    let _ = println!(to.out; "{call}: number 0");
}

// A call and the number that it refused by.
pub fn answer(to: &Output, refused: Refused) {
    let Refused { call, why } = refused;
    let number = u8::from(why);
    let _ = println!(to.out; "{call}: number {number}");
}

// What an update that was taken recomputed, beside the bytes of all layers.
pub fn recomputed(to: &Output, count: usize, made: usize) {
    let _ = println!(to.out; "update: number 0, count {count} of {made} bytes");
}

// Bytes in one line.
pub fn bytes(to: &Output, read: &[u8]) {
    for b in read {
        let _ = print!(to.out; " {b}");
    }
    let _ = println!(to.out);
}

// Words on standard error, which need not be text.
pub fn say(to: &Output, words: &[u8]) {
    let _ = to.err.write_all(words);
}

// The words that the program is called with.
pub fn usage(to: &Output) {
    let _ = eprintln!(to.err; "usage: walk NETWORK PICTURE FIRST COUNT ROWS LAYER RECORD");
}

// That a call refused, and why.
pub fn refusal(to: &Output, refused: Refused) {
    let Refused { call, why } = refused;
    let number = u8::from(why);
    let _ = eprintln!(to.err; "{call}: refused {number}: {why}");
}

// The system's words alone, without the number that std writes after them.
fn words_of(text: &str) -> &str {
    match text.split_once(" (os error ") {
        Some((words, _)) => words,
        None => text,
    }
}

// That a file cannot be read, and why.
pub fn failure(to: &Output, name: &[u8], error: io::Error) {
    let text = InlineText::<256>::of(error);
    let why = words_of(text.as_str());
    say(to, name);
    let _ = eprintln!(to.err; ": {why}");
}

// That a word is no number.
pub fn no_number(to: &Output, word: &[u8]) {
    say(to, b"'");
    say(to, word);
    let _ = eprintln!(to.err; "' is not a number below 1000000000");
}

// How a file's length differs from the picture's.
pub fn other_length(to: &Output, length: usize, picture: usize) {
    let other = if length < picture { "fewer" } else { "more" };
    let _ = eprintln!(to.err; ": {other} bytes than the network's picture, which has {picture}");
}
