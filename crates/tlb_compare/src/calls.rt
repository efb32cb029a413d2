// The calls that are made, drawn from few enough pages that slots are taken over and blocks collide.
ghost use Rattle.std.specs.Prelude.{◌<◌};
ghost use Rattle.tlb_compare.specs.declared.calls.Call.TheVariants.{Probe, Load, Purge, Flush};

use crate::plain::{PlainEntry, PlainPair};
use crate::random::Random;
use words::Form;

#[derive(Clone, Copy)]
pub enum Call {
    Probe(u64),
    Load(PlainEntry, u64),
    Purge(u64),
    Flush,
}

impl Call {
    pub fn draw(random: &mut Random) -> Call
        ensures { elim result [ Probe page ↦ page < 384 | Load entry page ↦ page < 384 | Purge page ↦ page < 384 | Flush ↦ Unit {0} ] }
    {
        match random.below(1024) {
            0 => Call::Flush,
            1..=63 => Call::Purge(draw_page(random)),
            64..=511 => draw_load(random),
            _ => Call::Probe(draw_page(random)),
        }
    }
}

// A page of 24 blocks.
fn draw_page(random: &mut Random) -> u64
    ensures { result < 384 }
{
    random.below(24 * 16)
}

// One entry in four is drawn for a page of its own, and mostly says nothing of the page.
fn draw_load(random: &mut Random) -> Call
    ensures { elim result [ Probe page ↦ ⊥ | Load entry page ↦ page < 384 | Purge page ↦ ⊥ | Flush ↦ ⊥ ] }
{
    let page = draw_page(random);
    let own = if random.below(4) == 0 {
        draw_page(random)
    } else {
        page
    };
    let entry = match random.below(16) {
        0 => PlainEntry {
            page: own,
            form: Form::Full,
            word: 0,
        },
        1..=6 => full(random, own),
        _ => compact(random, own),
    };
    Call::Load(entry, page)
}

// The entry of the page alone.
fn full(random: &mut Random, page: u64) -> PlainEntry {
    PlainEntry::from(PlainPair {
        page,
        frame: random.below(0x1000_0000),
        attributes: random.below(0x1000),
    })
}

// An entry of the page and of others of its block.
fn compact(random: &mut Random, page: u64) -> PlainEntry {
    let offsets = random.below(0x1_0000) | 1 << page % 16;
    PlainEntry {
        page,
        form: Form::Compact,
        word: offsets << 48 | random.below(0x100_0000) << 16 | random.below(0x1000),
    }
}
