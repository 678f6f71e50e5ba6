//! Threads and sockets: workers of replicas, and a front with its clients. Printed is what must be seen whatever the
//! schedule.
#![tactic(auto)]

mod fronts;
mod workers;

use anyhow::Result;

fn main(rt: HostRuntime) -> Result<()> {
    workers::play_all(&rt)?;
    fronts::play_all(&rt)
}
