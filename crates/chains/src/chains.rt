// Blocks on nodes: 256 nodes in 64 chains, and those that are free in one more.
ghost use Rattle.std.specs.Prelude.{◌≡◌, ℕ, ◌^◌, None, Some, is_some, MatchOption, MatchResult, OnOk, length, slice_index_or};
ghost use Rattle.words.specs.Points.{at};
ghost use Rattle.chains.specs.Contents.{paired};
ghost use Rattle.chains.specs.Counting.{how_many};
ghost use Rattle.chains.specs.Nodes.{Sound, Single, Kept, AllFree, FreeLink, is_linked, is_held};

use crate::node::{Body, Content, Found, NoNode, Way};
use std::array;
use words::{Block, Page};

// Of the places of the links: the first head, and the head of the free nodes.
const HEADS: usize = 256;

const FREE: usize = 320;

// A link leads to the next node, where there is one; by its number, since there is no heap. The links of the 256 nodes are followed by the
// heads of the 64 chains and of the free nodes: in one array, so that a link is written alike in a node and in a head. The blocks and the
// contents of the nodes are arrays of their own, as a search reads only links and blocks. The block of a free node is of no account: a
// search compares only the nodes of its chain, and none of those is free. A node that has a
// block is on the chain of the block's bucket. The count of those is kept, so that none has to be counted.
#[derive(Drop)]
pub struct Chains {
    links: [Option<u8>; 321],
    blocks: [Block; 256],
    contents: [Content; 256],
    count: u16,
    ghost wide: { length (paired blocks contents) ≡ 256 },
    ghost sound: { Sound links (paired blocks contents) },
    ghost single: { Single links (paired blocks contents) },
    ghost kept: { Kept links (paired blocks contents) },
    ghost counted: { count ≡ how_many (is_linked (paired blocks contents)) 256 },
    ghost held: { count ≡ how_many (is_held links (paired blocks contents)) (2 ^ 48) },
}

// Where a place leads while every node is free.
fn free_link(place: usize) -> Option<u8>
    ensures { FreeLink place result }
{
    match place {
        0..=254 => Some(place as u8 + 1),
        FREE => Some(0),
        _ => None,
    }
}

fn free_links() -> [Option<u8>; 321]
    ensures { AllFree result }
{
    array::from_fn(free_link)
}

impl Chains {
    ghost use Rattle.chains.specs.Orders.{no_order, in_front, put_in, cut_out};
    ghost use Rattle.chains.specs.Chains.{body_of, body_at, order, Absent, Leads, Finds, Puts, Writes, Nodes, insert_refusals};
    ghost use Rattle.chains.specs.Faults.{no_node_number};
    ghost use Rattle.words.specs.Refusals.{First, Accepted};

    // No block has a node.
    pub fn new() -> Chains
        ensures held { (b : ℕ) → body_of result b ≡ None }
        ensures order { order result ≡ no_order }
    {
        Chains {
            links: free_links(),
            blocks: [Page::of_address(0).block(); 256],
            contents: [Content::Free; 256],
            count: 0,
        }
    }

    // How many blocks have a node.
    #[tactic(auto, using(crate::proofs::Held::count_all))]
    pub fn count(&self) -> u16
        ensures { Nodes self.now result }
    {
        self.count
    }

    // The node of the block.
    pub fn find(&self, block: Block) -> Option<Found>
        ensures { MatchOption result (Absent self.now block.number) (λ f. Finds self.now block.number f) }
    {
        Some(self.way_to(block)?.found)
    }

    // What a node holds; none where it is free.
    #[tactic(auto, using(crate::proofs::Pairs::body_there))]
    pub fn body(&self, node: u8) -> Option<Body>
        ensures { result ≡ body_at self.now node }
    {
        self.contents[usize::from(node)].body()
    }

    // Writes what a node holds; one that is free stays so.
    pub fn replace(&mut self, node: u8, body: Body)
        ensures held { Writes self.old node body self.new }
        ensures order { order self.new ≡ order self.old }
    {
        let own = usize::from(node);
        if self.contents[own].body().is_some() {
            self.contents[own] = Content::from(body);
        }
    }

    // Writes what is held of the block, on a new node where it has none.
    #[tactic(auto, using(crate::proofs::Held::found_held, crate::proofs::Changes::all_linked, crate::proofs::Changes::some_free))]
    pub fn insert(&mut self, block: Block, body: Body) -> Result<(), NoNode>
        ensures held { MatchResult result
            (λ _. Accepted (insert_refusals self.old block.number) × Puts self.old block.number (Some body) self.new)
            (λ _. First (insert_refusals self.old block.number) no_node_number × (self.new ≡ self.old)) }
        ensures order { OnOk result
            (order self.new ≡ put_in (is_some (body_of self.old block.number)) (order self.old) block.number) }
    {
        if let Some(found) = self.find(block) {
            self.replace(found.node, body);
            return Ok(());
        }
        let node = self.links[FREE].ok_or(NoNode)?;
        self.push(node, block, body);
        Ok(())
    }

    // Takes the block's node out; what it held.
    #[tactic(auto, using(crate::proofs::Orders::uncut))]
    pub fn remove(&mut self, block: Block) -> Option<Body>
        ensures answer { result ≡ body_of self.old block.number }
        ensures held { Puts self.old block.number None self.new }
        ensures order { order self.new ≡ cut_out (order self.old) block.number }
    {
        let way = self.way_to(block)?;
        let body = self.body(way.found.node);
        self.unlink(block, way);
        body
    }

    // The block's node, with the place whose link leads to it.
    fn way_to(&self, block: Block) -> Option<Way>
        ensures { MatchOption result (Absent self.now block.number) (λ w. Leads self.now block.number w) }
    {
        let mut place = HEADS + block.bucket();
        let mut looked = 0;
        while let Some(node) = self.links[place] {
            looked += 1;
            if self.blocks[usize::from(node)] == block {
                let found = Found { node, looked };
                return Some(Way { place, found });
            }
            place = usize::from(node);
        }
        None
    }

    // Links the first free node at the head of the block's chain.
    fn push(&mut self, node: u8, block: Block, body: Body)
        requires absent { body_of self.old block.number ≡ None }
        requires free { slice_index_or self.old.links 320 None ≡ Some node }
        ensures held { Puts self.old block.number (Some body) self.new }
        ensures order { order self.new ≡ in_front (order self.old) block.number }
    {
        let own = usize::from(node);
        let head = HEADS + block.bucket();
        let rest = self.links[own];
        let first = self.links[head];
        self.links[own] = first;
        self.links[FREE] = rest;
        self.links[head] = Some(node);
        self.blocks[own] = block;
        self.contents[own] = Content::from(body);
        self.count += 1;
    }

    // Unlinks the block's node.
    fn unlink(&mut self, block: Block, way: Way)
        requires { Leads self.old block.number way }
        ensures held { Puts self.old block.number None self.new }
        ensures order { order self.new ≡ cut_out (order self.old) block.number }
    {
        let own = usize::from(way.found.node);
        let rest = self.links[own];
        let free = self.links[FREE];
        self.links[way.place] = rest;
        self.links[own] = free;
        self.links[FREE] = Some(way.found.node);
        self.contents[own] = Content::Free;
        self.count -= 1;
    }
}
