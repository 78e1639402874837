// The pick: which of the dimensions offered a message takes.
#![tactic(auto)]

ghost use Rattle.std.specs.Prelude.{◌≡◌, ◌≤◌};
ghost use Rattle.cube.specs.Bits.{bit};
ghost use Rattle.cube.specs.Count.{ranked};
ghost use Rattle.pick.specs.Pick.{named, taken};

// The dimension of rank r in a mask, rank 0 the lowest.
fn rank(n: u32, mask: u16, r: u32) -> Option<u32>
    requires { n ≤ 16 }
    ensures { result ≡ named (ranked (bit mask) r n) }
{
    let mut left = mask;
    for _ in 0..r {
        if left == 0 {
            return None;
        }
        left = left & (left - 1);
    }
    let i = left.trailing_zeros() + 1;
    if n < i { None } else { Some(i) }
}

// The dimension that a pick takes of those offered, where one up to n is.
pub fn taken(n: u32, mask: u16, pick: u8) -> Option<u32>
    ensures { result ≡ named (taken n mask pick) }
{
    let offered = mask.count_ones();
    if offered == 0 {
        return None;
    }
    // A mask has no dimension above 16.
    rank(n.min(16), mask, pick as u32 % offered)
}
