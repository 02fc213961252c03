// Calls the surface for C, for strings, sets, the engine's call and the calls that go on from it, and prints what it leaves: its name, the number that it returns, and then the words that it was lent.
// These hold marks before the call, so that words left as they came are seen.
#![tactic(auto)]

mod call;
mod decide;
mod print;
mod sets;
mod strings;

use std::io;

fn main(rt: HostRuntime) -> io::Result<()> {
    strings::run(&rt)?;
    sets::run(&rt)?;
    call::run(&rt)?;
    decide::run(&rt)
}
