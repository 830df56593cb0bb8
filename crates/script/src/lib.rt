// A script of calls on a book, one line each, and the answer to each call.
#![tactic(auto)]

ghost use Rattle.script.specs.Histories.{SessionsRun};

mod answer;
mod calls;
mod failure;
mod hex;
mod opening;
mod session;

pub use session::Session;
use std::io;
use std::io::{BufRead, BufReader};

// Answers the script on standard input, each line in its turn.
pub fn run(rt: &HostRuntime) -> io::Result<()> {
    let mut session = Session::new(rt.alloc());
    let lines = BufReader::new(rt.alloc(), rt.stdin())?.split(rt.alloc(), b'\n');
    for (k, line) in lines.enumerate() {
        let answer = session.answer(k.saturating_add(1), line?.as_slice())?;
        rt.print(answer.as_str())?;
    }
    Ok(())
}

// In every session, the calls on the register that is open are a run of a register on the book, and the run is right.
pub fn sessions_run()
    ensures { SessionsRun }
{}
