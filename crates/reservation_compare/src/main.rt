// Compares each frame allocator with a plain model of it on pseudo-random calls.
#![tactic(auto)]

mod calls;
mod compare;
mod event;
mod fault;
mod group_model;
mod list_model;
mod model;
#[cfg(test)]
mod tests;

use anyhow::anyhow;
use calls::FIRST_GROUP;
use compare::compare;
use event::{EVENTS, Outcome};
use fault::Stop;
use frames::FreeListAllocator;
use group_model::GroupModel;
use list_model::ListModel;
use reservation::ReservationAllocator;

fn main(rt: HostRuntime) -> anyhow::Result<()> {
    run(&rt)
}

fn run(rt: &HostRuntime) -> anyhow::Result<()> {
    let heap = rt.alloc();
    report(
        rt,
        "free list",
        compare(
            heap,
            FreeListAllocator::new(FIRST_GROUP),
            ListModel::new(heap)?,
        ),
    )?;
    report(
        rt,
        "reservation",
        compare(
            heap,
            ReservationAllocator::new(FIRST_GROUP),
            GroupModel::new(heap)?,
        ),
    )
}

fn report(rt: &HostRuntime, name: &str, outcome: Result<Vec<Outcome>, Stop>) -> anyhow::Result<()> {
    match outcome {
        Ok(outcomes) => {
            print!(rt; "{name}: {} calls", outcomes.len())?;
            for kind in EVENTS {
                let mut count = 0u64;
                let mut allowed = 0u64;
                for outcome in outcomes.iter() {
                    if outcome.event == kind {
                        count = count.saturating_add(1);
                        allowed = allowed.saturating_add(outcome.allowed as u64);
                    }
                }
                if allowed > 0 {
                    print!(rt; ", {count} {kind} of {allowed} frames")?;
                } else if count > 0 {
                    print!(rt; ", {count} {kind}")?;
                }
            }
            println!(rt; ", agree")?;
            Ok(())
        }
        Err(stop) => {
            println!(rt; "{name}: {stop}")?;
            Err(anyhow!("the comparison stopped"))
        }
    }
}
