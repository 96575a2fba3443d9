//! Reads a text from standard input and writes what is in it.
#![tactic(auto)]

use std::io::{Read, Write};

fn run(rt: &HostRuntime) -> anyhow::Result<()> {
    let mut text = Vec::new(rt.alloc());
    rt.stdin().read_to_end(&mut text)?;
    let lines = report::report(rt.alloc(), &text)?;
    rt.stdout().write_all(lines.as_bytes())?;
    Ok(())
}

fn main(rt: HostRuntime) -> anyhow::Result<()> {
    run(&rt)
}
