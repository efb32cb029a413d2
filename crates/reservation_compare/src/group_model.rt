// Reservation by its rules alone: each step looks through all the groups.
ghost use Rattle.std.specs.Prelude.{◌≡◌, ◌+◌, ◌*◌, ◌<◌, All, IfOk, MatchOption, false, length, replicate};
ghost use Rattle.reservation_compare.specs.declared.group_model.Use.TheVariants.{Open};
ghost use Rattle.reservation_compare.specs.GroupModel.{group_model, model_out, out_at};
ghost use Rattle.std.specs.Bool.{OnTrue};

use crate::calls::FIRST_FRAME;
use crate::event::Event;
use crate::model::{Choices, FrameModel};
use std::alloc::{AllocError, Global};

#[derive(Clone, Copy, PartialEq, Eq, Debug)]
enum Use {
    Open,
    // Turns rise, so the group with the least was reserved longest ago.
    Reserved { block: u64, turn: u64 },
    Broken,
}

#[derive(Clone, Copy)]
struct GroupState {
    used: Use,
    out: [bool; 16],
}

impl GroupState {
    fn has_in(&self) -> bool {
        self.out.contains(&false)
    }

    // Whether any page may have a frame.
    fn is_spare(&self) -> bool {
        self.used == Use::Broken && self.has_in()
    }

    fn is_reserved_for(&self, own: u64) -> bool {
        matches!(self.used, Use::Reserved { block, .. } if block == own)
    }

    // The turn of a reserved group that has a frame to give.
    fn turn(&self) -> Option<u64> {
        match self.used {
            Use::Reserved { turn, .. } if self.has_in() => Some(turn),
            _ => None,
        }
    }
}

// Where a frame is.
#[derive(Clone, Copy, PartialEq, Eq, Debug)]
struct Spot {
    group: usize,
    offset: usize,
    ghost within: { offset < 16 },
}

impl Spot {
    // Frames below the stock have none; those past it are in groups that there are not.
    fn of_frame(frame: u32) -> Option<Spot>
        ensures { MatchOption result (frame < 74560) (λ spot. 74560 + (16 * spot.group + spot.offset) ≡ frame) }
    {
        let number = frame.checked_sub(FIRST_FRAME)? as usize;
        Some(Spot {
            group: number / 16,
            offset: number % 16,
        })
    }
}

// The first step that has a frame, with what it leaves no choice of: the frame's spot, or the group.
#[derive(Clone, Copy)]
enum Step {
    Kept(Spot),
    Reserves(Spot),
    Spare,
    Breaks,
    BreaksOldest(usize),
}

#[derive(Drop)]
pub(crate) struct GroupModel {
    groups: Vec<GroupState>,
    turns: u64,
}

impl GroupModel {
    // Every group open, all of its frames in.
    pub fn new(heap: Global) -> Result<GroupModel, AllocError>
        ensures { IfOk result (λ m. (length m.groups.items ≡ 256) × (m.turns ≡ 0) × All (λ s. (s.used ≡ Open) × (s.out ≡ replicate 16 false)) m.groups.items) }
    {
        let open = GroupState {
            used: Use::Open,
            out: [false; 16],
        };
        Ok(GroupModel {
            groups: vec![in heap; open; 256]?,
            turns: 0,
        })
    }

    // The first step that has a frame for the page.
    fn step(&self, page: u64) -> Option<Step> {
        let offset = (page % 16) as usize;
        if let Some(group) = self.reserved_group(page / 16) {
            let spot = Spot { group, offset };
            if !self.has_out(spot) {
                return Some(Step::Kept(spot));
            }
        } else if let Some(group) = self.open_group() {
            return Some(Step::Reserves(Spot { group, offset }));
        }
        self.any_step()
    }

    // The first step that gives any page a frame.
    fn any_step(&self) -> Option<Step> {
        if self.groups.iter().any(|group| group.is_spare()) {
            return Some(Step::Spare);
        }
        if self.open_group().is_some() {
            return Some(Step::Breaks);
        }
        Some(Step::BreaksOldest(self.oldest_group()?))
    }

    fn reserved_group(&self, own: u64) -> Option<usize> {
        self.groups
            .iter()
            .position(|group| group.is_reserved_for(own))
    }

    fn open_group(&self) -> Option<usize> {
        self.groups.iter().position(|group| group.used == Use::Open)
    }

    // The group reserved longest ago that has a frame in.
    fn oldest_group(&self) -> Option<usize> {
        let mut oldest = None;
        for (number, group) in self.groups.iter().enumerate() {
            if let Some(turn) = group.turn() {
                let older = match oldest {
                    Some((least, _)) => turn < least,
                    None => true,
                };
                if older {
                    oldest = Some((turn, number));
                }
            }
        }
        Some(oldest?.1)
    }

    fn has_out(&self, spot: Spot) -> bool
        ensures { result ≡ out_at self.now spot.group spot.offset }
    {
        match self.groups.get(spot.group) {
            Some(group) => group.out[spot.offset],
            None => false,
        }
    }

    // Whether the step may take the frame.
    fn allows(&self, step: Step, frame: u32) -> bool
        ensures { OnTrue result (model_out self.now frame ≡ false) }
    {
        let Some(spot) = Spot::of_frame(frame) else {
            return false;
        };
        let Some(group) = self.groups.get(spot.group) else {
            return false;
        };
        if self.has_out(spot) {
            return false;
        }
        match step {
            Step::Kept(only) | Step::Reserves(only) => spot == only,
            Step::Spare => group.used == Use::Broken,
            Step::Breaks => group.used == Use::Open,
            Step::BreaksOldest(oldest) => spot.group == oldest,
        }
    }

    // Takes the frame by the step.
    fn follow(&mut self, step: Step, block: u64, spot: Spot) {
        let turn = self.turns;
        if let Some(group) = self.groups.get_mut(spot.group) {
            group.out[spot.offset] = true;
            group.used = match step {
                Step::Kept(_) => group.used,
                Step::Reserves(_) => Use::Reserved { block, turn },
                Step::Spare | Step::Breaks | Step::BreaksOldest(_) => Use::Broken,
            };
        }
        self.turns = turn.saturating_add(1);
    }
}

impl From<Step> for Event {
    fn from(step: Step) -> Event {
        match step {
            Step::Kept(_) => Event::Kept,
            Step::Reserves(_) => Event::Reserved,
            Step::Spare => Event::Spare,
            Step::Breaks => Event::Broke,
            Step::BreaksOldest(_) => Event::BrokeOldest,
        }
    }
}

impl FrameModel for GroupModel {
    ghost meaning = { group_model };

    fn choices(&self, heap: Global, page: u64) -> Result<Choices, AllocError> {
        let mut frames = Vec::new(heap);
        let Some(step) = self.step(page) else {
            return Ok(Choices {
                event: Event::AllOut,
                frames,
            });
        };
        for frame in FIRST_FRAME..FIRST_FRAME + 4096 {
            if self.allows(step, frame) {
                frames.push(frame)?;
            }
        }
        Ok(Choices {
            event: Event::from(step),
            frames,
        })
    }

    fn take(&mut self, page: u64, frame: u32) {
        if let (Some(step), Some(spot)) = (self.step(page), Spot::of_frame(frame)) {
            self.follow(step, page / 16, spot);
        }
    }

    fn is_out(&self, frame: u32) -> bool {
        match Spot::of_frame(frame) {
            Some(spot) => self.has_out(spot),
            None => false,
        }
    }

    fn give(&mut self, frame: u32) -> Result<(), AllocError> {
        let Some(spot) = Spot::of_frame(frame) else {
            return Ok(());
        };
        if let Some(group) = self.groups.get_mut(spot.group) {
            group.out[spot.offset] = false;
            if !group.out.contains(&true) {
                group.used = Use::Open;
            }
        }
        Ok(())
    }
}
