// What a cabinet report means: the class of a status byte, which boards work, which links count as faulty.
#![tactic(auto)]

ghost use Rattle.std.specs.Prelude.{◌≡◌, min, ◌^◌, eqb};
ghost use Rattle.report.specs.Class.{class_of, is_working};
ghost use Rattle.cube.specs.Count.{pack};
ghost use Rattle.report.specs.Report.{reported, works, joint, SeenFromBothEnds, narrow, dimension, all_sized, within};

use cube::{Nav, Node};

// The class of a board by its status byte.
#[derive(Clone, Copy, Debug, PartialEq, Eq)]
pub enum Class {
    Silent,
    Working,
    Late,
    Down,
    Empty,
}

impl From<u8> for Class {
    ghost from_gives = { λ byte class. class ≡ class_of byte };

    // The class of a status byte. Every byte has one.
    fn from(byte: u8) -> Class {
        match byte {
            0 => Class::Silent,
            1..=4 => Class::Working,
            5..=253 => Class::Late,
            254 => Class::Down,
            255 => Class::Empty,
        }
    }
}

impl Class {
    // Only working boards are nonfaulty.
    pub fn is_working(self) -> bool
        ensures { result ≡ is_working self }
    {
        self == Class::Working
    }
}

// What a cabinet reports: its dimension, a status byte of each board, and a link word of each, in two slices as C lends them.
#[derive(Clone, Copy)]
pub struct Report<'a> {
    pub n: u32,
    pub status: &'a [u8],
    pub links: &'a [u16],
}

impl Report<'_> {
    // Whether n is from 1 to 10.
    pub fn has_dimension(&self) -> bool
        ensures { result ≡ dimension self.now.n }
    {
        dimension(self.n)
    }

    // Whether status bytes, link words and these vectors are one for each node.
    pub fn is_sized(&self, vectors: &[u16]) -> bool
        ensures { result ≡ all_sized (reported self.now) vectors.now }
    {
        let n = self.n;
        sized(n, self.status.len()) & (sized(n, self.links.len()) & sized(n, vectors.len()))
    }

    // Whether no link word has a bit at weight 2^n or above.
    pub fn is_narrow(&self) -> bool
        ensures { result ≡ narrow self.now.n self.now.links.now }
    {
        narrow(self.n, self.links)
    }

    // Whether the cube has node a.
    pub fn has_node(&self, a: Node) -> bool
        ensures { result ≡ within self.now.n a.0 }
    {
        has_node(self.n, a)
    }

    // Whether the cube has relative address v. Beside `has_node`, as nodes and relative addresses are kept apart.
    pub fn has_address(&self, v: Nav) -> bool
        ensures { result ≡ within self.now.n v.0 }
    {
        within(self.n, v.0)
    }

    // Whether the board of node a is working; a node past the end was never heard.
    pub fn works(&self, a: Node) -> bool
        ensures { result ≡ works self.now.status.now a.0 }
    {
        match self.status.get(a.0 as usize) {
            Some(byte) => Class::from(*byte).is_working(),
            None => false,
        }
    }
}

// The words of a link's two ends taken together, as the mask of the dimensions that either marks.
pub fn joint(own: u16, other: u16) -> u16
    ensures { result ≡ pack (joint own other) 16 }
{
    own | other
}

// A link is faulty seen from one end exactly when it is seen from the other.
pub fn seen_from_both_ends()
    ensures { SeenFromBothEnds }
{}

// Whether n is from 1 to 10.
pub fn dimension(n: u32) -> bool
    ensures { result ≡ dimension n }
{
    (1 <= n) & (n <= 10)
}

// Whether a slice of this length has one entry for each node.
pub fn sized(n: u32, length: usize) -> bool
    ensures { result ≡ eqb length (2 ^ n) }
{
    if 63 < n {
        return false;
    }
    let boards: usize = 1 << n;
    length == boards
}

// Whether a cube of dimension n has node a.
pub fn has_node(n: u32, a: Node) -> bool
    ensures { result ≡ within n a.0 }
{
    within(n, a.0)
}

// Whether a number is below 2^n.
fn within(n: u32, a: u16) -> bool
    ensures { result ≡ within n a }
{
    (a as u32) < limit(n)
}

// 2^n, or 2^16 where that is less.
fn limit(n: u32) -> u32
    ensures { result ≡ 2 ^ min n 16 }
{
    1 << n.min(16)
}

// Whether no link word has a bit at weight 2^n or above.
pub fn narrow(n: u32, links: &[u16]) -> bool
    ensures { result ≡ narrow n links.now }
{
    let top = limit(n);
    links.iter().all(|word| (*word as u32) < top)
}
