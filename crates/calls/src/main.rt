// Answers a script of calls on a book from standard input, a line each.
// Stays: the gate runs a program once, on its own `stdin`, so each set of vectors has a program around `script::run`.
#![tactic(auto)]

use std::io;

fn main(rt: HostRuntime) -> io::Result<()> {
    script::run(&rt)
}
