// Nodes and relative addresses of a cube, kept apart. Exclusive or is the only bridge between them.
#![tactic(auto)]

ghost use Rattle.std.specs.Prelude.{◌≡◌, eqb};
ghost use Rattle.std.specs.Int.Bits.{bit_xor};
ghost use Rattle.cube.specs.Bits.{crossed, weight};

mod refusal;

pub use refusal::Refusal;

// An absolute node number.
#[derive(Clone, Copy)]
pub struct Node(pub u16);

// A relative address, Wu's navigation vector.
#[derive(Clone, Copy)]
pub struct Nav(pub u16);

// A number with dimension i crossed; outside 1 to 10 the same number.
#[tactic(auto, using(crate::proofs::Bits::crossed_low, crate::proofs::Bits::crossed_high))]
fn crossed(x: u16, i: u32) -> u16
    ensures { result ≡ crossed x i }
{
    match i {
        1..=10 => x ^ (1 << (i - 1)),
        _ => x,
    }
}

impl Node {
    // The relative address of this node and d.
    pub fn to(self, d: Node) -> Nav
        ensures { result.0 ≡ bit_xor self.0 d.0 }
    {
        Nav(self.0 ^ d.0)
    }

    // The node that lies at v from this one.
    pub fn at(self, v: Nav) -> Node
        ensures { result.0 ≡ bit_xor self.0 v.0 }
    {
        Node(self.0 ^ v.0)
    }

    // The neighbour along dimension i; outside 1 to 10 the same node.
    pub fn neighbour(self, i: u32) -> Node
        ensures { result.0 ≡ crossed self.0 i }
    {
        Node(crossed(self.0, i))
    }
}

impl Nav {
    // Its distance: how many bits are one.
    pub fn weight(self) -> u32
        ensures { result ≡ weight self.0 }
    {
        self.0.count_ones()
    }

    // Itself with dimension i crossed; outside 1 to 10 the same address.
    pub fn crossed(self, i: u32) -> Nav
        ensures { result.0 ≡ crossed self.0 i }
    {
        Nav(crossed(self.0, i))
    }

    // Whether it is 0.
    pub fn arrived(self) -> bool
        ensures { result ≡ eqb self.0 0 }
    {
        self.0 == 0
    }
}
