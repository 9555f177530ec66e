// Reads a network on standard input and writes its listing. What cannot be read or written is said on standard error.
#![tactic(auto)]

use inputs::fill;

// The listing of a file.
fn write_listing(rt: &(impl Print + Eprint), file: &[u8]) {
    let mut out = [0u8; 1024];
    let length = lines::list(file, &mut out);
    if rt.write_all(&out[..length]).is_err() {
        let _ = eprintln!(rt; "listing: standard output cannot be written");
    }
}

// A full buffer is refused as too long, whatever follows; with fewer bytes the input was read to its end.
fn main(rt: HostRuntime) {
    let mut file = [0u8; 65537];
    match fill(&mut rt.reader(), &mut file) {
        Ok(n) => write_listing(&rt, &file[..n]),
        Err(_) => {
            let _ = eprintln!(rt; "listing: standard input cannot be read to its end");
        }
    }
}
