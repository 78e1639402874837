// The whole journey: fill, decide, and hop to the end.
#![tactic(auto)]

ghost use Rattle.std.specs.Prelude.{◌≡◌, ◌&&◌, ◌++◌, ◌+◌, ◌≤◌, ◌<◌, leb, length, take, drop};
ghost use Rattle.cube.specs.Reply.{accepted, OneAnswer};
ghost use Rattle.cube.specs.Refusals.{refused_by};
ghost use Rattle.report.specs.Report.{reported};
ghost use Rattle.safety.specs.Safety.{vectors_of};
ghost use Rattle.pick.specs.Pick.{taken};
ghost use Rattle.rules.specs.Decide.{decide};
ghost use Rattle.routing.specs.Decide.{chosen};
ghost use Rattle.journey.specs.Journey.{leave, journey_refusal, journey, outcome, vectors_after, path_by, path_after, said};
ghost use Rattle.journey.specs.Promise.{JourneyWalks, JourneyArrives, JourneyRefuses};
ghost use Rattle.journey.specs.Message.{Crossed, Walks, ahead};

use cube::{Nav, Node, Refusal};
use report::Report;
use routing::Kind;

// What comes of an accepted journey: the source's kind and the hops made.
#[derive(Clone, Copy, Debug, PartialEq, Eq)]
pub struct Trip {
    pub kind: Kind,
    pub hops: u32,
}

// A message under way: where it is, and its relative address.
#[derive(Clone, Copy)]
struct Message {
    node: Node,
    nav: Nav,
}

impl Message {
    // One hop further, along the dimension that the pick takes of those offered.
    fn follow(self, n: u32, mask: u16, pick: u8) -> Message
        requires { n ≤ 10 }
        ensures { Crossed self (taken n mask pick) result }
    {
        let Some(i) = pick::taken(n, mask, pick) else {
            return self;
        };
        Message {
            node: self.node.neighbour(i),
            nav: self.nav.crossed(i),
        }
    }
}

// What a message goes by once its source is accepted: the report, the vectors that Fill wrote from it, and the picks.
#[derive(Drop)]
struct Way<'a> {
    report: &'a Report<'a>,
    vectors: &'a [u16],
    picks: &'a [u8],
    ghost small: { report.now.n ≤ 10 },
    ghost filled: { vectors.now ≡ vectors_of (reported report.now) },
    ghost chosen: { report.now.n + 1 ≤ length picks.now },
}

impl Way<'_> {
    // The hops after the first, to the end: each board goes into the path behind those before it.
    fn onward(&self, path: &mut [u16], first: Message, promised: usize)
        requires some { 1 ≤ promised }
        requires chosen { promised ≤ length self.now.picks.now }
        requires room { promised < length path.old }
        requires walks { Walks (reported self.now.report.now) promised 1 first }
        ensures { let R = reported self.now.report.now in
            let old = path.old in
            path.new ≡ take 2 old ++ ahead R self.now.picks.now 1 first ++ drop (promised + 1) old }
    {
        let mut m = first;
        // By numbers: the board after hop j stands behind the place of its pick, and a zip of two ranges would hide that.
        for j in 1..promised {
            // On a walk every board short of the end offers something.
            let answer = routing::hop(self.report, self.vectors, m.node, m.nav).unwrap();
            let mask = answer.unwrap();
            m = m.follow(self.report.n, mask, self.picks[j]);
            path[j + 1] = m.node.0;
        }
    }

    // From an accepted source to the end, written into the path; the first hop is by Decide's offer. Gives the hops promised, which are those made.
    fn depart(&self, path: &mut [u16], s: Node, d: Node, kind: Kind) -> u32
        requires room { self.now.report.now.n + 2 ≤ length path.old }
        requires accepts { let R = reported self.now.report.now in
            decide R (vectors_of R) s.0 d.0 ≡ accepted (chosen kind) }
        ensures { let R = reported self.now.report.now in
            let way = leave R self.now.picks.now s.0 d.0 (chosen kind) in
            (result ≡ length way.after) × (path.new ≡ path_by (accepted way) s.0 path.old) }
    {
        let offer = kind.offer();
        path[0] = s.0;
        // No hops: at home, as `Kind::offer` says.
        if offer.hops != 0 {
            let start = Message {
                node: s,
                nav: s.to(d),
            };
            let first = start.follow(self.report.n, offer.mask, self.picks[0]);
            path[1] = first.node.0;
            self.onward(path, first, offer.hops as usize);
        }
        offer.hops
    }
}

// Whether there are picks for n + 1 hops and room for n + 2 path words.
fn roomy(n: u32, picks: &[u8], path: &[u16]) -> bool
    ensures { result ≡ (leb (n + 1) (length picks.now) && leb (n + 2) (length path.now)) }
{
    let hops = n as usize + 1;
    (hops <= picks.len()) & (hops + 1 <= path.len())
}

// What is tested before filling. From 4 on its tests are Decide's.
#[tactic(auto, using(crate::proofs::Refusals::by_chain, cube::proofs::Refusals::tests_in_turn))]
fn tested(
    report: &Report,
    vectors: &[u16],
    picks: &[u8],
    path: &[u16],
    s: Node,
    d: Node,
) -> Result<(), Refusal>
    ensures { let R = reported report.now in
        refused_by result ≡ journey_refusal R vectors.now picks.now path.now s.0 d.0 }
{
    let roomy = roomy(report.n, picks, path);
    Refusal::Dimension.unless(report.has_dimension())?;
    Refusal::Length.unless(report.is_sized(vectors) & roomy)?;
    Refusal::LinkWord.unless(report.is_narrow())?;
    routing::tested(report, vectors, s, d)
}

// Journey: fills, decides and hops to the end, and writes the nodes from s to d into the lent path.
pub fn journey(
    report: &Report,
    vectors: &mut [u16],
    picks: &[u8],
    path: &mut [u16],
    s: Node,
    d: Node,
) -> Result<Trip, Refusal>
    ensures answer { let R = reported report.now in
        said result ≡ outcome (journey R vectors.old picks.now path.old s.0 d.0) }
    ensures words { let R = reported report.now in
        vectors.new ≡ vectors_after R vectors.old picks.now path.old s.0 d.0 }
    ensures boards { let R = reported report.now in
        path.new ≡ path_after R vectors.old picks.now path.old s.0 d.0 }
{
    tested(report, vectors, picks, path, s, d)?;
    // What Fill refuses is refused above.
    vectors::fill(report, vectors).unwrap();
    let kind = routing::decide(report, vectors, s, d)?;
    let way = Way {
        report,
        vectors: &*vectors,
        picks,
    };
    let hops = way.depart(path, s, d, kind);
    Ok(Trip { kind, hops })
}

// Journey's path is one of demand 3's walks.
pub fn journey_walks()
    ensures { JourneyWalks }
{}

// It ends at the destination, after the hops promised.
pub fn journey_arrives()
    ensures { JourneyArrives }
{}

// Before it fills Journey refuses by 1 to 6, and after that by 7 alone.
pub fn journey_refuses()
    ensures { JourneyRefuses }
{}

// For every input the contract of `journey` allows one answer.
pub fn one_trip()
    ensures { OneAnswer said }
{}
