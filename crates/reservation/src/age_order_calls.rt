// Groups join the order, leave it, wait, and move down.
ghost use Rattle.std.specs.Prelude.{◌≡◌, ℕ, ◌<◌, ◌≤◌, true, false, Some, length, MatchOption, slice_index, slice_set};
ghost use Rattle.arrayvec.specs.ArrayVec.{array_vec_len};
ghost use Rattle.reservation.specs.Ages.{member, waits, taken, Gap, Oldest, SameOrder, Joins, Stays, Leaves, Updated};

use crate::age_order::AgeOrder;
use crate::bit_set::BitSet;
use arrayvec::ArrayVec;

impl AgeOrder {
    pub(crate) fn empty() -> AgeOrder
        ensures { (g : ℕ) → member result g ≡ false }
    {
        AgeOrder {
            ranks: [None; 256],
            groups: ArrayVec::new(),
            waiting: BitSet::empty(),
        }
    }

    // Puts a group last or keeps it where it is, and notes whether it waits; without a turn it leaves. An `Option` of the flag, since what it
    // says is just that: of a group that has no turn there is nothing to note.
    pub(crate) fn update(&mut self, group: u8, turn: Option<bool>)
        ensures { Updated self.old group turn self.new }
    {
        match turn {
            None => self.leave(group),
            Some(wait) if self.has(group) => self.mark(group, wait),
            Some(wait) => self.join(group, wait),
        }
    }

    // The first group that waits.
    #[tactic(auto, using(crate::proofs::Ages::oldest_at))]
    pub(crate) fn oldest(&self) -> Option<u8>
        ensures { MatchOption result ((g : ℕ) → waits self.now g ≡ false) (λ g. Oldest self.now g) }
    {
        let rank = self.waiting.first_from(0)?;
        Some(self.groups[rank])
    }

    // Whether a group is in the order.
    fn has(&self, group: u8) -> bool
        ensures { result ≡ member self.now group }
    {
        self.ranks[usize::from(group)].is_some()
    }

    // Notes whether a group of the order waits.
    fn mark(&mut self, group: u8, wait: bool)
        requires { member self.old group ≡ true }
        ensures { Stays self.old group wait self.new }
    {
        if let Some(rank) = self.ranks[usize::from(group)] {
            self.waiting.put(usize::from(rank), wait);
        }
    }

    fn leave(&mut self, group: u8)
        ensures { Leaves self.old group self.new }
    {
        if let Some(rank) = self.ranks[usize::from(group)] {
            self.ranks[usize::from(group)] = None;
            self.waiting.put(usize::from(rank), false);
        }
    }

    fn join(&mut self, group: u8, wait: bool)
        requires { member self.old group ≡ false }
        ensures { Joins self.old group wait self.new }
    {
        self.make_room();
        self.append(group, wait);
    }

    // Sees that a rank is free. That the order stays is a relation of before and after, so it stands in each contract and no type has it.
    fn make_room(&mut self)
        ensures same { SameOrder self.old self.new }
        ensures room { array_vec_len self.new.groups < 512 }
    {
        if self.groups.is_full() {
            self.compact();
        }
    }

    fn append(&mut self, group: u8, wait: bool)
        requires new { member self.old group ≡ false }
        requires room { array_vec_len self.old.groups < 512 }
        ensures { Joins self.old group wait self.new }
    {
        let rank = self.groups.len();
        self.ranks[usize::from(group)] = Some(rank as u16);
        self.groups.push(group);
        self.waiting.put(rank, wait);
    }

    // Moves the groups to the lowest ranks, in their order.
    fn compact(&mut self)
        ensures same { SameOrder self.old self.new }
        ensures room { array_vec_len self.new.groups ≤ 256 }
    {
        let mut lowest = 0;
        // By index: the closure of a `retain` would have to count as well, and to write the ranks and the set as it goes.
        for rank in 0..self.groups.len() {
            if self.is_taken(rank) {
                self.move_down(rank, lowest);
                lowest += 1;
            }
        }
        self.groups.truncate(lowest);
    }

    // Whether a group of the order has the rank.
    fn is_taken(&self, rank: usize) -> bool
        requires { rank < array_vec_len self.now.groups }
        ensures { result ≡ taken self.now rank }
    {
        self.ranks[usize::from(self.groups[rank])] == Some(rank as u16)
    }

    // The group at one rank goes to a lower one, past ranks that have none.
    fn move_down(&mut self, from: usize, to: usize)
        requires here { taken self.old from ≡ true }
        requires down { to ≤ from }
        requires gap { Gap self.old to from }
        ensures same { SameOrder self.old self.new }
        ensures moved { self.new.ranks ≡ slice_set self.old.ranks (slice_index self.old.groups.items from) (Some to) }
        ensures wide { (length self.old.ranks ≡ 256) × (array_vec_len self.new.groups ≡ array_vec_len self.old.groups) }
    {
        let group = self.groups[from];
        let wait = self.waiting.has(from);
        self.ranks[usize::from(group)] = Some(to as u16);
        self.groups[to] = group;
        self.waiting.put(from, false);
        self.waiting.put(to, wait);
    }
}
