// The program's words: files, and numbers. What is wrong with one is said on standard error.
ghost use Rattle.std.specs.Prelude.{◌≤◌, length, IfOk, IfSome};

use crate::print;
use crate::print::Output;
use inputs::fill;
use std::env::FillError;
use std::rt::{Env, Files};
use std::{fs, io, str};

// Whether the program was called with a word i; word 0 is its own name.
pub fn has_word(rt: &impl Env, i: usize) -> bool {
    !matches!(rt.arg(i, &mut []), Err(FillError::NotPresent))
}

// Word i, at the front of text; one that is longer than text counts as empty.
fn word<'a>(rt: &impl Env, i: usize, text: &'a mut [u8; 4096]) -> &'a [u8]
    ensures { length result.now ≤ 4096 }
{
    let length = rt.arg(i, text).unwrap_or(0);
    &text[..length]
}

// The system's number for text in no encoding of its own, which stands for a file's name that is not UTF-8.
const EILSEQ: i32 = 84;

// The bytes of the file of that name, at the front of buf. A full buffer is too long for any call, whatever follows; with fewer bytes the
// file has ended.
fn contents<'a>(rt: &impl Files, name: &[u8], buf: &'a mut [u8; 65537]) -> io::Result<&'a mut [u8]>
    ensures { IfOk result (λ bytes. length bytes.now ≤ 65537) }
{
    let path = str::from_utf8(name).map_err(|_| io::Error::from_raw_os_error(EILSEQ))?;
    let length = fill(&mut fs::open(rt, path)?, buf)?;
    Ok(&mut buf[..length])
}

// The bytes of the file that word i names, at the front of buf.
pub fn file<'a>(
    rt: &(impl Env + Files),
    to: &Output,
    i: usize,
    buf: &'a mut [u8; 65537],
) -> Option<&'a mut [u8]>
    ensures { IfSome result (λ bytes. length bytes.now ≤ 65537) }
{
    let mut text = [0u8; 4096];
    let name = word(rt, i, &mut text);
    match contents(rt, name, buf) {
        Ok(bytes) => Some(bytes),
        Err(error) => {
            print::failure(to, name, error);
            None
        }
    }
}

// Says word i.
pub fn say_word(rt: &impl Env, to: &Output, i: usize) {
    let mut text = [0u8; 4096];
    print::say(to, word(rt, i, &mut text));
}

// Every number that is taken is below.
const LIMIT: usize = 1_000_000_000;

// The number that digits alone spell: a sign, which `parse` takes, is none.
fn spelt(text: &[u8]) -> Option<usize> {
    if !text.iter().all(|c| c.is_ascii_digit()) {
        return None;
    }
    let number = str::from_utf8(text).ok()?.parse::<usize>().ok()?;
    (number < LIMIT).then_some(number)
}

// Word i as a number.
pub fn read_number(rt: &impl Env, to: &Output, i: usize) -> Option<usize> {
    let mut text = [0u8; 4096];
    let text = word(rt, i, &mut text);
    let number = spelt(text);
    if number.is_none() {
        print::no_number(to, text);
    }
    number
}
