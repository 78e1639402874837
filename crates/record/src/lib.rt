// One report record: bytes on the wire.
#![tactic(auto)]

ghost use Rattle.std.specs.Prelude.{◌≡◌, ◌+◌, ◌*◌, ◌^◌, ◌<◌, ◌≤◌, length};
ghost use Rattle.cube.specs.Refusals.{saying};
ghost use Rattle.cube.specs.Reply.{accepted, unless, OneAnswer};
ghost use Rattle.report.specs.Report.{narrow};
ghost use Rattle.record.specs.Open.{word, open_refusal, opened, status_opened, links_opened, said};
ghost use Rattle.record.specs.Fields.{fields};
ghost use Rattle.record.specs.Words.{words_in};
ghost use Rattle.record.specs.Restate.{restated, ReadsBack};

use cube::Refusal;

// The two bytes at i as a number; a byte past the end reads as 0.
#[tactic(auto, unfolding(crate::specs::Open::word))]
pub fn word_at(bytes: &[u8], i: usize) -> u16
    ensures { result ≡ word bytes.now i }
{
    match bytes.get(i..) {
        Some([low, high, ..]) => u16::from_le_bytes([*low, *high]),
        Some([low]) => u16::from(*low),
        _ => 0,
    }
}

// How many nodes a cube of dimension n has.
#[tactic(auto, using(std::proofs::lemmas::Nat::one_shl, crate::proofs::Fields::nodes_le))]
fn nodes_of(n: u32) -> usize
    requires { n ≤ 10 }
    ensures power { result ≡ 2 ^ n }
    ensures small { result ≤ 1024 }
{
    1 << n
}

// What the tests of a record have shown: its n, and a status byte and a link word, as its two bytes, of each node.
#[derive(Drop)]
struct Parts<'a> {
    n: u32,
    status: &'a [u8],
    links: &'a [[u8; 2]],
    ghost small: { n ≤ 10 },
    ghost status_sized: { length status.now ≡ 2 ^ n },
    ghost links_sized: { length links.now ≡ 2 ^ n },
}

impl<'a> Parts<'a> {
    ghost use Rattle.record.specs.Parts.{parted};

    // The parts of a record. Its tests come first, those of the slices lent for it among them.
    #[tactic(auto, using(crate::proofs::Refusals::record_tests), unfolding(crate::specs::Open::open_refusal))]
    fn of(bytes: &'a [u8], status: &[u8], links: &[u16]) -> Result<Parts<'a>, Refusal>
        ensures { saying parted result ≡ unless (open_refusal bytes.now status.now links.now) (accepted (fields bytes.now)) }
    {
        Refusal::Malformed.unless(5 <= bytes.len())?;
        let length = usize::from(word_at(bytes, 0));
        Refusal::Malformed.unless(length == bytes.len() - 2)?;
        Refusal::Malformed.unless(word_at(bytes, 2) == 1)?;
        let n = u32::from(bytes[4]);
        Refusal::Dimension.unless(report::dimension(n))?;
        let nodes = nodes_of(n);
        Refusal::Malformed.unless(length == 3 + 3 * nodes)?;
        Refusal::Length.unless(nodes <= status.len() && nodes <= links.len())?;
        let (_, rest) = bytes.split_at(5);
        let (status, words) = rest.split_at(nodes);
        let (links, _) = words.as_chunks();
        let parts = Parts { n, status, links };
        Refusal::LinkWord.unless(parts.is_narrow())?;
        Ok(parts)
    }

    // Whether every link word is below the number of nodes. For speed they are taken together, as one mask of what any marks.
    fn is_narrow(&self) -> bool
        ensures { result ≡ narrow self.now.n (words_in self.now.links.now) }
    {
        let marked = self
            .links
            .iter()
            .fold(0, |marked, pair| marked | u16::from_le_bytes(*pair));
        usize::from(marked) < self.status.len()
    }

    // Copies the link words to the places lent for them, one for each node. By place: over `zip` the proof did not close.
    #[tactic(auto, using(crate::proofs::Words::in_turn), unfolding(crate::specs::Open::word))]
    fn write_links(&self, links: &mut [u16])
        requires { length links.old ≡ length self.now.links.now }
        ensures { links.new ≡ words_in self.now.links.now }
    {
        for (a, word) in links.iter_mut().enumerate() {
            *word = u16::from_le_bytes(self.links[a]);
        }
    }
}

// Copies bytes to as many places. By place: `copy_from_slice` is a memmove, and the archive for C needs none from outside.
#[tactic(auto, using(crate::proofs::Words::in_turn))]
fn copy(bytes: &[u8], places: &mut [u8])
    requires { length places.old ≡ length bytes.now }
    ensures { places.new ≡ bytes.now }
{
    for (a, place) in places.iter_mut().enumerate() {
        *place = bytes[a];
    }
}

// Reads a record: gives its n back, and writes its status bytes and link words into the first 2^n places of the lent slices.
#[tactic(auto, using(crate::proofs::Exits::laws), unfolding(crate::specs::Open::opened, crate::specs::Open::status_opened, crate::specs::Open::links_opened))]
pub fn open(bytes: &[u8], status: &mut [u8], links: &mut [u16]) -> Result<u32, Refusal>
    ensures answer { said result ≡ opened bytes.now status.old links.old }
    ensures boards { status.new ≡ status_opened bytes.now status.old links.old }
    ensures words { links.new ≡ links_opened bytes.now status.old links.old }
{
    let parts = Parts::of(bytes, status, links)?;
    let nodes = parts.status.len();
    copy(parts.status, &mut status[..nodes]);
    parts.write_links(&mut links[..nodes]);
    Ok(parts.n)
}

// For every input the contract of `open` allows one answer; the lent slices are given by `status_opened` and `links_opened`.
pub fn one_answer()
    ensures { OneAnswer said }
{}

// Puts status bytes in place of a record's own, if it has the room.
#[tactic(auto, using(crate::proofs::Restated::restated_not, crate::proofs::Restated::restated_put))]
pub fn restate(bytes: &mut [u8], status: &[u8])
    ensures { bytes.new ≡ restated bytes.old status.now }
{
    if 5 <= bytes.len() && status.len() <= bytes.len() - 5 {
        copy(status, &mut bytes[5..5 + status.len()]);
    }
}

// A record that Open reads, restated, is one that Open reads, with the same n and link words and the status bytes given.
pub fn reads_back()
    ensures { ReadsBack }
{}
