// Prints the listing of the book on standard input.
#![tactic(auto)]

use listing::listing;
use std::io;
use std::io::{Read, Write};

// One byte more than the longest book has: what is longer yet is refused alike.
// Stays: `book` keeps that length to itself, and this program builds on `listing` alone.
const MOST: u64 = 8193;

fn main(rt: HostRuntime) -> io::Result<()> {
    let mut bytes = Vec::new(rt.alloc());
    rt.stdin().take(MOST).read_to_end(&mut bytes)?;
    let lines = listing(rt.alloc(), bytes.as_slice())?;
    rt.stdout().write_all(lines.as_slice())
}
