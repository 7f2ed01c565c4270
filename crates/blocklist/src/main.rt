// Reads records from standard input and prints how their blocks are laid, forwarded and reordered; or `refused N at P`.
// All that decides anything is in `lister`: this program moves bytes.
#![tactic(auto)]

use std::io;
use std::io::{Read, Write};

// Longer than the longest file and the longest listing, so that a file which is too long is seen to be.
const ROOM: usize = 1 << 16;

fn main(rt: HostRuntime) -> io::Result<()> {
    let mut input: [u8; ROOM] = [0; ROOM];
    let mut out: [u8; ROOM] = [0; ROOM];
    let n = io::copy(&mut rt.stdin().take(ROOM as u64), &mut &mut input[..])? as usize;
    let written = lister::list(&input[..n.min(ROOM)], &mut out);
    rt.stdout().write_all(&out[..written.min(ROOM)])
}
