//! Replicas and fronts as their processes run them, over loopback, each with a state directory. Printed is what must be seen
//! whatever the schedule.
#![tactic(auto)]

mod asking_clients;
mod deployed;
mod endings;
mod key_texts;
mod playing;
mod running;

use crate::deployed::Deployed;
use crate::playing::play;
use crate::running::{front_thread, front_thread_again, replica_thread};
use anyhow::Result;
use std::thread;

fn main(rt: HostRuntime) -> Result<()> {
    let rt = &rt;
    let deployed = Deployed::new(rt)?;
    let deployed = &deployed;
    thread::scope(thread::scope_env(), rt, |scope| {
        let _ = scope.spawn(move || replica_thread(rt, deployed, 0));
        let _ = scope.spawn(move || replica_thread(rt, deployed, 1));
        let _ = scope.spawn(move || replica_thread(rt, deployed, 2));
        let _ = scope.spawn(move || replica_thread(rt, deployed, 3));
        let _ = scope.spawn(move || front_thread(rt, deployed, 0, 2));
        let _ = scope.spawn(move || front_thread(rt, deployed, 1, 2));
        let _ = scope.spawn(move || front_thread_again(rt, deployed));
        play(rt, deployed)
    })
}
