// Compares each TLB with a plain model of it on pseudo-random calls.
#![tactic(auto)]

mod answers;
mod calls;
mod compare;
mod fault;
mod forgetful;
mod model;
mod pairs;
mod plain;
mod random;
mod slots;

use anyhow::anyhow;
use compare::{CALLS, compare};
use fault::Stop;
use forgetful::ForgetfulTlb;
use model::{OnePage, PartialSubblock, SlotModel, TwoLevelModel};
use tlb::{OnePageTlb, PartialSubblockTlb, TwoLevelTlb};

fn main(rt: HostRuntime) -> anyhow::Result<()> {
    run(&rt)
}

fn run(rt: &HostRuntime) -> anyhow::Result<()> {
    let heap = rt.alloc();
    agree(
        rt,
        "one-page",
        compare(OnePageTlb::new(), SlotModel::new(heap, OnePage)),
    )?;
    agree(
        rt,
        "partial-subblock",
        compare(
            PartialSubblockTlb::new(),
            SlotModel::new(heap, PartialSubblock),
        ),
    )?;
    let two = TwoLevelTlb::new(OnePageTlb::new(), PartialSubblockTlb::new());
    let two_model = TwoLevelModel::new(
        SlotModel::new(heap, OnePage),
        SlotModel::new(heap, PartialSubblock),
    );
    agree(
        rt,
        "one-page over partial-subblock",
        compare(two, two_model),
    )?;
    let below = TwoLevelTlb::new(PartialSubblockTlb::new(), OnePageTlb::new());
    let below_model = TwoLevelModel::new(
        SlotModel::new(heap, PartialSubblock),
        SlotModel::new(heap, OnePage),
    );
    agree(
        rt,
        "one-page over partial-subblock over one-page",
        compare(
            TwoLevelTlb::new(OnePageTlb::new(), below),
            TwoLevelModel::new(SlotModel::new(heap, OnePage), below_model),
        ),
    )?;
    let forgetful = ForgetfulTlb {
        tlb: OnePageTlb::new(),
    };
    differ(
        rt,
        "one-page, all forgotten at a purge",
        compare(forgetful, SlotModel::new(heap, OnePage)),
    )
}

fn agree(rt: &HostRuntime, name: &str, outcome: Result<u32, Stop>) -> anyhow::Result<()> {
    report(rt, name, outcome)?;
    match outcome {
        Ok(_) => Ok(()),
        Err(Stop::Differs { .. }) => Err(anyhow!("the answers do not agree")),
        Err(Stop::Faulty { .. }) => Err(anyhow!("the comparison stopped")),
    }
}

fn differ(rt: &HostRuntime, name: &str, outcome: Result<u32, Stop>) -> anyhow::Result<()> {
    report(rt, name, outcome)?;
    match outcome {
        Err(Stop::Differs { .. }) => Ok(()),
        Err(Stop::Faulty { .. }) => Err(anyhow!("the comparison stopped")),
        Ok(_) => Err(anyhow!("no difference was found")),
    }
}

fn report(rt: &HostRuntime, name: &str, outcome: Result<u32, Stop>) -> anyhow::Result<()> {
    match outcome {
        Ok(hits) => println!(rt; "{name}: {CALLS} calls, {hits} hits, agree")?,
        Err(stop) => println!(rt; "{name}: {stop}")?,
    }
    Ok(())
}
