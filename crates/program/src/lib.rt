// What programs over records share: reading all of an input, and why a record is refused, in words.
#![tactic(auto)]

ghost use Rattle.std.specs.Prelude.{◌≡◌, ◌^◌, ◌<◌, ◌≤◌, min, length, take, IfOk};
ghost use Rattle.std.specs.Io.KnownBytes.{Consumes, IsAtEnd};
ghost use Rattle.io.specs.Counts.{IsPrefixLen};
ghost use Rattle.record.specs.Open.{said};
ghost use Rattle.program.specs.Input.{came, answered};
ghost use Rattle.program.specs.declared.Fault.TheVariants.{Input};

use cube::Refusal;
use record::word_at;
use std::fmt;
use std::io::Read;

// A read failed, after so many bytes.
#[derive(Clone, Copy, Debug)]
pub struct Failed {
    pub count: usize,
}

// Reads until an input ends, which is a read of no bytes, until a read fails, or until the room is full, and gives how many bytes came.
// A room of one byte more than is allowed is full just where too much came. What the reader gave stands in the room, in its order.
// The count goes by what each read gives, so no range or chain counts for it; std's own loops over reads fill a Vec, which is heap.
pub fn read_all<R: Read>(from: &mut R, room: &mut [u8]) -> Result<usize, Failed>
    ensures count { IsPrefixLen (came result) room.new }
    ensures bytes { Consumes (R.remaining from.old) (R.remaining from.new) (take (came result) room.new) }
    ensures end { IfOk result (λ count. count < length room.new → IsAtEnd (R.remaining from.new)) }
{
    let mut count = 0;
    while count < room.len() {
        match from.read(&mut room[count..]) {
            Ok(0) => return Ok(count),
            Ok(more) => count += more,
            Err(_) => return Err(Failed { count }),
        }
    }
    Ok(count)
}

// The dimension of the record that an input is, if Open reads it; over 4,096 bytes are refused by 10.
#[tactic(auto, using(cube::proofs::Refusals::failed, cube::proofs::Refusals::holds), unfolding(crate::specs::Input::answered))]
pub fn open(bytes: &[u8]) -> Result<u32, Refusal>
    ensures { said result ≡ answered bytes.now }
{
    Refusal::Malformed.unless(bytes.len() <= 4096)?;
    record::open(bytes, &mut [0; 1024], &mut [0; 1024])
}

// How many boards a cube of dimension n has; from 10 on 1,024.
pub fn boards(n: u32) -> usize
    ensures few { result ≤ 1024 }
    ensures power { result ≡ 2 ^ min n 10 }
{
    1 << n.min(10)
}

// Why a record is refused: for which reason, and the record.
#[derive(Clone, Copy)]
pub struct Why<'a> {
    pub refusal: Refusal,
    pub bytes: &'a [u8],
}

impl Why<'_> {
    // The record's dimension n, its fifth byte.
    fn dimension(&self) -> u32 {
        u32::from(word_at(self.bytes, 4) % 256)
    }

    // How many boards its cube has.
    fn boards(&self) -> usize
        ensures { result ≤ 1024 }
    {
        boards(self.dimension())
    }

    // The first node whose link word marks a dimension above n.
    fn too_wide(&self) -> Option<usize> {
        let boards = self.boards();
        let words = self.bytes.get(5 + boards..)?;
        words
            .chunks(2)
            .position(|word| boards <= usize::from(word_at(word, 0)))
    }

    // Says which of Open's reasons to refuse a record by 10 holds first.
    fn malformed<W: fmt::Write>(&self, f: &mut fmt::Formatter<W>) -> fmt::Result {
        let bytes = self.bytes;
        let came = bytes.len();
        let told = word_at(bytes, 0);
        let kind = word_at(bytes, 2);
        if came == 0 {
            write!(f, "no bytes came")
        } else if came < 5 {
            write!(f, "a record has at least 5 bytes, and {came} came")
        } else if 4096 < came {
            write!(
                f,
                "a record has at most 3077 bytes, and more than 4096 came"
            )
        } else if told as usize != came - 2 {
            let after = came - 2;
            write!(
                f,
                "the record's first two bytes announce {told} bytes after them, and {after} came"
            )
        } else if kind != 1 {
            write!(
                f,
                "the record's kind, its third and fourth byte, is {kind}, and a report's is 1"
            )
        } else {
            let boards = self.boards();
            let size = 5 + 3 * boards;
            write!(
                f,
                "a record of {boards} boards has {size} bytes, and {came} came"
            )
        }
    }
}

impl fmt::Display for Why<'_> {
    // Says by which number the record is refused, what that means and where to look.
    fn fmt<W: fmt::Write>(&self, f: &mut fmt::Formatter<W>) -> fmt::Result {
        let n = self.dimension();
        write!(f, "{}: ", self.refusal)?;
        match self.refusal {
            Refusal::Dimension => write!(
                f,
                "the record's dimension n, its fifth byte, is {n}, and n is from 1 to 10"
            ),
            Refusal::LinkWord => {
                let node = self.too_wide().unwrap_or(self.boards());
                write!(
                    f,
                    "the link word of node {node} marks a dimension above n = {n}"
                )
            }
            Refusal::Malformed => self.malformed(f),
            _ => write!(f, "the record is refused"),
        }
    }
}

// What a program over a record says on standard error.
#[derive(Clone, Copy)]
pub enum Fault<'a> {
    Input,
    Output,
    Record(Why<'a>),
}

impl From<Failed> for Fault<'_> {
    ghost from_gives = { λ failed fault. fault ≡ Input };

    // Reading standard input failed.
    fn from(_: Failed) -> Self {
        Fault::Input
    }
}

impl fmt::Display for Fault<'_> {
    fn fmt<W: fmt::Write>(&self, f: &mut fmt::Formatter<W>) -> fmt::Result {
        match self {
            Fault::Input => write!(f, "standard input can't be read"),
            Fault::Output => write!(f, "standard output can't be written"),
            Fault::Record(why) => write!(f, "{why}"),
        }
    }
}
