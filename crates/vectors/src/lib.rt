// Wu's safety vectors: Fill.
#![tactic(auto)]

ghost use Rattle.std.specs.Prelude.{◌≡◌, suc, ◌^◌, ◌≤◌, ◌<◌, ◌&&◌, length, replicate};
ghost use Rattle.cube.specs.Count.{one, count};
ghost use Rattle.cube.specs.Reply.{OneAnswer};
ghost use Rattle.cube.specs.Refusals.{refused_by};
ghost use Rattle.cube.specs.Table.{table};
ghost use Rattle.report.specs.Report.{reported, cube};
ghost use Rattle.safety.specs.Safety.{registered, supported};
ghost use Rattle.vectors.specs.Rounds.{Fits, after, digit, shown, Digits, all_faults, masked, known};
ghost use Rattle.vectors.specs.Fill.{fill_refusal, fill, filled, said};

use cube::{Node, Refusal};
use report::Report;

// The faulty links of every node, over empty masks; most reports mark no link.
// That a slice fits the report is asked here and three times below, of masks and of vectors: a struct would hold masks in two, vectors in the others.
fn gather(report: &Report, masks: &mut [u16])
    requires { Fits (reported report.now) masks.old × (masks.old ≡ replicate (2 ^ report.now.n) 0) }
    ensures { masks.new ≡ all_faults report.now.n report.now.links.now }
{
    if report::narrow(0, report.links) {
        return;
    }
    for (a, mask) in masks.iter_mut().enumerate() {
        *mask = held::faulty_links(report, Node(a as u16));
    }
}

// Bit k of every vector, as a byte for each node. With `zip` in place of the index the iterators' own goals stayed open.
fn show(vectors: &[u16], bytes: &mut [u8], k: u32)
    requires { (k ≤ 16) × (length bytes.old ≡ length vectors.now) }
    ensures { bytes.new ≡ table (digit vectors.now k) (length vectors.now) }
{
    for (a, byte) in bytes.iter_mut().enumerate() {
        *byte = held::bit_of(vectors[a], k) as u8;
    }
}

// What a round reads: the report, the faulty links of every node as a mask, and the last bit of every vector as a byte.
#[derive(Clone, Copy)]
struct Seen<'a> {
    report: Report<'a>,
    masks: &'a [u16],
    bytes: &'a [u8],
    ghost fit: { Fits (reported report) masks.now },
    ghost sized: { length bytes.now ≡ 2 ^ report.n },
    ghost digits: { Digits bytes.now },
}

// That a < 2^n stands in three of these contracts: a type for it would have to be made, and this proved, at each turn of the loop in `round`.
impl Seen<'_> {
    ghost use Rattle.vectors.specs.Seen.{seen};

    // How many of a's neighbours along dimensions 1 to n are registered with the bit shown, if a's faulty links are the mask's.
    #[inline(always)]
    fn count(&self, n: u32, mask: u16, a: usize) -> u32
        requires { (n ≤ self.now.report.n) × (a < 2 ^ self.now.report.n) }
        ensures { result ≡ count (registered (masked mask) (shown self.now.bytes.now) a) n }
    {
        let mut sum = 0;
        for i in 0..n {
            let b = a ^ (1 << i);
            sum += (1 - (mask >> i) as u32 % 2) * self.bytes[b] as u32;
        }
        sum
    }

    // How many of a's neighbours are registered with the bit shown.
    fn heard_by(&self, a: usize) -> u32
        requires { a < 2 ^ self.now.report.n }
        ensures { result ≡ count (registered (seen self.now).cut (shown self.now.bytes.now) a) self.now.report.n }
    {
        // For speed: most nodes have no faulty link, and with numbers in place of names the largest cabinet's loop is written out.
        match (self.masks[a], self.report.n) {
            (0, 10) => self.count(10, 0, a),
            (0, n) => self.count(n, 0, a),
            (mask, n) => self.count(n, mask, a),
        }
    }

    // Bit k + 1 of node a by the bits k shown, as the number that goes into its vector.
    fn next_bit(&self, a: usize, k: u32) -> u16
        requires { (k < self.now.report.n) × (a < 2 ^ self.now.report.n) }
        ensures { let C = seen self.now in
            result ≡ one (C.works a && supported C (shown self.now.bytes.now) (suc k) a) }
    {
        if !self.report.works(Node(a as u16)) {
            return 0;
        }
        u16::from(self.heard_by(a) > self.report.n - (k + 1))
    }

    // Round k: bit k + 1 of every vector, by the bits k shown.
    fn round(&self, vectors: &mut [u16], k: u32)
        requires { (k < self.now.report.n) × (vectors.old ≡ after (seen self.now) k)
            × (self.now.bytes.now ≡ table (digit vectors.old k) (2 ^ self.now.report.n)) }
        ensures { vectors.new ≡ after (seen self.now) (suc k) }
    {
        for (a, vector) in vectors.iter_mut().enumerate() {
            *vector += self.next_bit(a, k) << k;
        }
    }
}

// The rounds, one for each bit; before the first, every byte shows bit 0, which is 1.
fn all_rounds(report: &Report, masks: &[u16], bytes: &mut [u8], vectors: &mut [u16])
    requires { Fits (reported report.now) masks.now × (bytes.old ≡ replicate (2 ^ report.now.n) 1) × (length vectors.old ≡ 2 ^ report.now.n) }
    ensures { vectors.new ≡ after (known (reported report.now) masks.now) report.now.n }
{
    // For speed: a copy, which no write of the vectors can touch.
    let report = *report;
    vectors.fill(0);
    for k in 0..report.n {
        let seen = Seen {
            report,
            masks: &*masks,
            bytes: &*bytes,
        };
        seen.round(vectors, k);
        show(vectors, bytes, k + 1);
    }
}

// The link words read once, then the rounds, with room for so many boards.
fn in_room<const ROOM: usize>(report: &Report, vectors: &mut [u16])
    requires { Fits (reported report.now) vectors.old × (2 ^ report.now.n ≤ ROOM) × (ROOM ≤ 1024) }
    ensures { vectors.new ≡ after (cube (reported report.now)) report.now.n }
{
    let nodes = vectors.len();
    let mut masks = [0u16; ROOM];
    let mut bytes = [1u8; ROOM];
    gather(report, &mut masks[..nodes]);
    all_rounds(report, &masks[..nodes], &mut bytes[..nodes], vectors);
}

// All the vectors, in as much room as they take.
fn write_vectors(report: &Report, vectors: &mut [u16])
    requires { Fits (reported report.now) vectors.old }
    ensures { vectors.new ≡ after (cube (reported report.now)) report.now.n }
{
    if report.n <= 5 {
        in_room::<32>(report, vectors);
    } else {
        in_room::<1024>(report, vectors);
    }
}

// What is tested before anything is written.
#[tactic(auto, using(cube::proofs::Refusals::tests_in_turn), unfolding(crate::specs::Fill::fill_refusal))]
fn tested(report: &Report, vectors: &[u16]) -> Result<(), Refusal>
    ensures { refused_by result ≡ fill_refusal (reported report.now) vectors.now }
{
    Refusal::Dimension.unless(report.has_dimension())?;
    Refusal::Length.unless(report.is_sized(vectors))?;
    Refusal::LinkWord.unless(report.is_narrow())
}

// Fill: writes all 2^n vectors into the lent slice.
pub fn fill(report: &Report, vectors: &mut [u16]) -> Result<(), Refusal>
    ensures answer { said result ≡ fill (reported report.now) vectors.old }
    ensures words { vectors.new ≡ filled (reported report.now) vectors.old }
{
    tested(report, vectors)?;
    write_vectors(report, vectors);
    Ok(())
}

// For every input the contract of `fill` allows one answer; the lent slice is given by `filled`.
pub fn one_answer()
    ensures { OneAnswer said }
{}
