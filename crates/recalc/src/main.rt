// Reads a script from standard input and prints its answers. All of the work is in `session`.
#![tactic(auto)]

use script::lines::SCRIPT;
use session::run;
use std::io;
use std::io::{Read, Write};

fn main(rt: HostRuntime) -> io::Result<()> {
    let mut input = Vec::new(rt.alloc());
    // one byte past the limit decides whether the script is too long
    rt.stdin().take(SCRIPT as u64 + 1).read_to_end(&mut input)?;
    let output = run(rt.alloc(), input.as_slice())?;
    rt.stdout().write_all(output.as_slice())
}
