// The program: a sheet from standard input, its lines to standard output. A sheet has at most 65,536 bytes; one byte more is read, so that a longer
// input is seen to be longer. A word is answered by how the program is called, on standard error, and so is an input without a byte, beside its
// line.
#![tactic(auto)]

use std::env::{Env, FillError};
use std::io;
use std::io::Read;

// How the program is called, on standard error.
fn tell_call(rt: &impl Eprint) -> io::Result<()> {
    eprintln!(rt; "desk reads a sheet from standard input and takes no words: desk <SHEET")
}

// Whether the program was called with a word.
fn has_word(rt: &impl Env) -> bool {
    let mut first = [0u8; 1];
    !matches!(rt.arg(1, &mut first), Err(FillError::NotPresent))
}

fn main(rt: HostRuntime) -> io::Result<()> {
    if has_word(&rt) {
        return tell_call(&rt);
    }
    let mut sheet = Vec::new(rt.alloc());
    rt.stdin().take(65537).read_to_end(&mut sheet)?;
    if sheet.is_empty() {
        tell_call(&rt)?;
    }
    let mut room = [0u8; 8192];
    let count = lines::print(&sheet, &mut room);
    rt.write_all(&room[..count])
}
