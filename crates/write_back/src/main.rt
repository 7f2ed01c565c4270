// Reads records from standard input and writes them back to standard output; a refusal prints only `refused N at P`.
// All that decides anything is in `layout`: this program moves bytes.
#![tactic(auto)]

use std::io;
use std::io::{Print, Read, Write};

// Longer than the longest file, so that a file which is too long is seen to be.
const ROOM: usize = 1 << 16;

fn print_refusal(out: &impl Print, number: u64, place: u64) -> io::Result<()> {
    println!(out; "refused {number} at {place}")
}

fn main(rt: HostRuntime) -> io::Result<()> {
    let mut input: [u8; ROOM] = [0; ROOM];
    let mut out: [u8; ROOM] = [0; ROOM];
    let n = io::copy(&mut rt.stdin().take(ROOM as u64), &mut &mut input[..])? as usize;
    let answer = layout::layout_write_back(&input[..n.min(ROOM)], &mut out);
    // The answer is C's, and so is its refusal, a number.
    if answer.refusal != 0 {
        return print_refusal(&rt.stdout(), answer.refusal, answer.place);
    }
    let written = answer.written as usize;
    rt.stdout().write_all(&out[..written.min(ROOM)])
}
