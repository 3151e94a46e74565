// Reads one sheet from standard input, and prints its listing.

#![tactic(auto)]

use anyhow::Context;
use std::io::{Read, Write};
use transcript::listing_of;

// One byte more than a sheet may have shows that it is too long.
const MOST_READ: u64 = 32769;

fn main(rt: HostRuntime) -> anyhow::Result<()> {
    let mut sheet = Vec::new(rt.alloc());
    rt.stdin().take(MOST_READ).read_to_end(&mut sheet)?;
    let listing = listing_of(rt.alloc(), &sheet)
        .ok()
        .context("there is no memory for the listing")?;
    rt.stdout().write_all(&listing)?;
    Ok(())
}
