// Any list of calls on a new page table.
ghost use Rattle.std.specs.Prelude.{◌≡◌, map};
ghost use Rattle.table.specs.Table.{mapping, order};

use crate::table::PageTable;
use words::{Page, Translation};

#[derive(Clone, Copy, PartialEq, Eq, Debug)]
pub enum TableCall {
    Map(Page, Translation),
    Unmap(Page),
    Protect(Page, u16),
    Walk(Page),
    Census,
}

// A call, and whether it was refused.
#[derive(Clone, Copy, PartialEq, Eq, Debug)]
pub struct TableEvent {
    pub call: TableCall,
    pub refused: bool,
}

impl PageTable {
    ghost use Rattle.table.specs.Replay.{Performs, next_order};

    // Makes a call; whether it was refused.
    fn perform(&mut self, call: TableCall) -> bool
        ensures held { Performs (mapping self.old) call result (mapping self.new) }
        ensures order { order self.new ≡ next_order (mapping self.old) (order self.old) call result }
    {
        match call {
            TableCall::Map(page, translation) => self.map(page, translation).is_err(),
            TableCall::Unmap(page) => self.unmap(page).is_err(),
            TableCall::Protect(page, attributes) => self.protect(page, attributes).is_err(),
            TableCall::Walk(page) => self.walk(page).is_err(),
            TableCall::Census => {
                self.census();
                false
            }
        }
    }
}

ghost use Rattle.table.specs.Replay.{Replays};

// Makes the calls on a new table, and notes of each whether it was refused.
pub fn replay_table(events: &mut [TableEvent]) -> PageTable
    ensures { Replays events.old events.new (mapping result) (order result) }
{
    let mut table = PageTable::new();
    for event in events.iter_mut() {
        event.refused = table.perform(event.call);
    }
    table
}
