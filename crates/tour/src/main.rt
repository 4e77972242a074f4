// Plans of the makes of game that are no sheets, and a tour of the library.
#![tactic(auto)]

mod library;

use brief::plan_line;
use corridor::Corridor;
use library::{house_run, tour};
use std::fs;
use std::io::Write;

fn main(rt: HostRuntime) -> anyhow::Result<()> {
    // The verdict on a corridor and how many kiosk states its plan meets, or the number of the refusal.
    for rooms in [1, 4, 4096, 4097] {
        let line = plan_line(rt.alloc(), "corridor", rooms, Corridor { rooms })?;
        rt.stdout().write_all(line.as_slice())?;
    }
    let house = fs::read(&rt, "house.sheet")?;
    tour(&rt, house.as_slice())?;
    house_run(&rt)?;
    Ok(())
}
