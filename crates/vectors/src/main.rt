// Runs the scripts in `data/` and compares what they print with what they should: NAME.in and NAME.out.
#![tactic(auto)]

use session::run;
use std::{fs, io};

// Whether the script NAME.in prints NAME.out.
fn is_right(rt: &HostRuntime, name: &str) -> io::Result<bool> {
    let script = fs::read(rt, format!(in rt.alloc(); "{name}.in")?)?;
    let wanted = fs::read(rt, format!(in rt.alloc(); "{name}.out")?)?;
    let printed = run(rt.alloc(), script.as_slice())?;
    Ok(printed.as_slice() == wanted.as_slice())
}

fn main(rt: HostRuntime) -> io::Result<()> {
    let names = fs::read_to_string(&rt, "names")?;
    for name in names.lines() {
        let verdict = if is_right(&rt, name)? {
            "as wanted"
        } else {
            "OTHERWISE"
        };
        println!(rt; "{name}: {verdict}")?;
    }
    Ok(())
}
