// A node, and what it holds of its block.
ghost use Rattle.std.specs.Prelude.{◌≡◌, ◌<◌, Some};
ghost use Rattle.chains.specs.Faults.{no_node_left};

use std::error::Error;
use std::fmt;
use words::CompactWord;

// One of 128 rows of sixteen full words, by its number; a type of its own, as a page is.
#[derive(Clone, Copy, PartialEq, Eq, Debug)]
pub struct RowNumber {
    pub number: u8,
    ghost within: { number < 128 },
}

impl Default for RowNumber {
    ghost is_default = { λ row. row.number ≡ 0 };

    fn default() -> RowNumber {
        RowNumber { number: 0 }
    }
}

// The pages of a block: in one compact word, or in a row.
#[derive(Clone, Copy, PartialEq, Eq, Debug)]
pub enum Body {
    Compact(CompactWord),
    Row(RowNumber),
}

// What a node has: nothing where it is free, else a body. One enum, and no `Option` of a body: the tag of each would be a word of its own,
// and the 256 nodes would not fit beside the rows in the room that the table may take.
#[derive(Clone, Copy, PartialEq, Eq, Debug)]
pub enum Content {
    Free,
    Compact(CompactWord),
    Row(RowNumber),
}

impl From<Body> for Content {
    ghost use Rattle.chains.specs.Contents.{content_body};

    ghost from_gives = { λ body content. content_body content ≡ Some body };

    fn from(body: Body) -> Content {
        match body {
            Body::Compact(word) => Content::Compact(word),
            Body::Row(row) => Content::Row(row),
        }
    }
}

impl Content {
    ghost use Rattle.chains.specs.Contents.{content_body};

    // None where the node is free.
    pub(crate) fn body(self) -> Option<Body>
        ensures { result ≡ content_body self }
    {
        match self {
            Content::Free => None,
            Content::Compact(word) => Some(Body::Compact(word)),
            Content::Row(row) => Some(Body::Row(row)),
        }
    }
}

// The node of a block, and how many nodes were looked at to find it.
#[derive(Clone, Copy, PartialEq, Eq, Debug)]
pub struct Found {
    pub node: u8,
    pub looked: u16,
}

// A node that was found, and the place, a head or a node, whose link leads to it.
#[derive(Clone, Copy)]
pub(crate) struct Way {
    pub(crate) place: usize,
    pub(crate) found: Found,
}

// All nodes are linked.
#[derive(Clone, Copy, PartialEq, Eq, Debug)]
pub struct NoNode;

impl fmt::Display for NoNode {
    ghost output = { λ _. Some no_node_left };

    fn fmt<W: fmt::Write>(&self, f: &mut fmt::Formatter<W>) -> fmt::Result {
        f.write_str("all nodes are linked")
    }
}

impl Error for NoNode {}
