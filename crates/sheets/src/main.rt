// Prints the listings of the sheets that its arguments name, each behind a line with the name.

#![tactic(auto)]

use anyhow::Context;
use std::io::Write;
use std::{env, fs};
use transcript::listing_of;

fn list(rt: &HostRuntime, name: &str) -> anyhow::Result<()> {
    let sheet = fs::read(rt, name)?;
    let listing = listing_of(rt.alloc(), &sheet)
        .ok()
        .context("there is no memory for the listing")?;
    println!(rt; "== {name}")?;
    rt.stdout().write_all(&listing)?;
    Ok(())
}

fn main(rt: HostRuntime) -> anyhow::Result<()> {
    for name in env::args(&rt)?.skip(1) {
        list(&rt, name.as_str())?;
    }
    Ok(())
}
