// What a record asks of an address space, carried out.
ghost use Rattle.std.specs.Prelude.{◌≡◌};
ghost use Rattle.player.specs.Steps.{Steps, Answers, line_mark};
ghost use Rattle.trace_format.specs.declared.record.Record.TheVariants as ask;

use crate::fault::StepFault;
use frames::FrameAllocator;
use space::{Space, Unsettled};
use tlb::Tlb;
use trace_format::{Line, Mark, Record};

// Carries out what the record asks for; the line that says what came of it.
pub fn step<T: Tlb, F: FrameAllocator>(space: &mut Space<T, F>, asked: Record) -> Line
    ensures { Steps space.old asked result space.new }
{
    match answer(space, asked) {
        Ok(line) => line,
        Err(fault) => Line::Refused {
            kind: asked.kind(),
            number: u32::from(fault),
        },
    }
}

// The line of a record that is not refused.
fn answer<T: Tlb, F: FrameAllocator>(
    space: &mut Space<T, F>,
    asked: Record,
) -> Result<Line, StepFault>
    ensures { Answers space.old asked result space.new }
{
    match asked {
        Record::Populate {
            address,
            attributes,
        } => populate(space, address, attributes),
        Record::Release { address } => release(space, address),
        Record::Protect {
            address,
            attributes,
        } => protect(space, address, attributes),
        Record::Touch { address, access } => touch(space, address, access),
        Record::Try { address } => begin_and_abandon(space, address),
        Record::Census => Ok(count(space)),
    }
}

// Begins a fill and settles it; where that is refused, abandons it.
fn populate<T: Tlb, F: FrameAllocator>(
    space: &mut Space<T, F>,
    address: u64,
    attributes: u16,
) -> Result<Line, StepFault>
    ensures { Answers space.old (ask.Populate address attributes) result space.new }
{
    let fill = space.begin(address)?;
    match fill.settle(space, attributes) {
        Ok(frame) => Ok(Line::Populated { frame }),
        Err(Unsettled { fill, fault }) => {
            fill.abandon(space)?;
            Err(StepFault::from(fault))
        }
    }
}

fn release<T: Tlb, F: FrameAllocator>(
    space: &mut Space<T, F>,
    address: u64,
) -> Result<Line, StepFault>
    ensures { Answers space.old (ask.Release address) result space.new }
{
    let former = space.release(address)?;
    Ok(Line::Released {
        frame: former.frame,
    })
}

fn protect<T: Tlb, F: FrameAllocator>(
    space: &mut Space<T, F>,
    address: u64,
    attributes: u16,
) -> Result<Line, StepFault>
    ensures { Answers space.old (ask.Protect address attributes) result space.new }
{
    let former = space.protect(address, attributes)?;
    Ok(Line::Protected { attributes: former })
}

fn touch<T: Tlb, F: FrameAllocator>(
    space: &mut Space<T, F>,
    address: u64,
    access: u8,
) -> Result<Line, StepFault>
    ensures { Answers space.old (ask.Touch address access) result space.new }
{
    let touched = space.touch(address, access)?;
    Ok(Line::Touched {
        physical: touched.physical,
        mark: mark_in_line(touched.mark),
    })
}

fn mark_in_line(mark: space::Mark) -> Mark
    ensures { result ≡ line_mark mark }
{
    match mark {
        space::Mark::Hit => Mark::Hit,
        space::Mark::Missed => Mark::Missed,
    }
}

fn begin_and_abandon<T: Tlb, F: FrameAllocator>(
    space: &mut Space<T, F>,
    address: u64,
) -> Result<Line, StepFault>
    ensures { Answers space.old (ask.Try address) result space.new }
{
    let fill = space.begin(address)?;
    let frame = fill.abandon(space)?;
    Ok(Line::Tried { frame })
}

fn count<T: Tlb, F: FrameAllocator>(space: &Space<T, F>) -> Line
    ensures { Steps space.now ask.Census result space.now }
{
    let census = space.census();
    Line::Counted {
        nodes: u32::from(census.nodes),
        rows: u32::from(census.rows),
        pages: u32::from(census.pages),
        fills: census.fills as u32,
    }
}
