//! Links between processes over loopback, in one process. Printed is what must be seen whatever the schedule.
#![tactic(auto)]

mod again;
mod counts;
mod siege;
mod stations;
mod usual;
mod villain;
mod warned;

use anyhow::Result;

fn main(rt: HostRuntime) -> Result<()> {
    usual::play(&rt)?;
    again::play(&rt)?;
    siege::play(&rt)
}
