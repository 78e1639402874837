// Wu's two routing rules: the decision at the source, and the hop at a later node.
#![tactic(auto)]

ghost use Rattle.std.specs.Prelude.{◌≡◌, true, false, length, ℕ, ◌^◌, ◌≤◌, ◌<◌, Some, None};
ghost use Rattle.cube.specs.Bits.{weight};
ghost use Rattle.cube.specs.Reply.{OneAnswer};
ghost use Rattle.cube.specs.Refusals.{refused_by};
ghost use Rattle.report.specs.Report.{reported, cut};
ghost use Rattle.held.specs.Held.{own};
ghost use Rattle.rules.specs.Rules.{mask_of, hops_of, offer, spare, choose, at_source, proceed, at_node};
ghost use Rattle.rules.specs.Refusals.{decide_refusal};
ghost use Rattle.rules.specs.Decide.{decide};
ghost use Rattle.rules.specs.Hop.{hop};
ghost use Rattle.routing.specs.Decide as deciding;
ghost use Rattle.routing.specs.Hop as hopping;

use cube::{Nav, Node, Refusal};
use report::Report;

// The dimensions offered, dimension i at weight 2^(i−1), and the hops to the destination.
#[derive(Clone, Copy, Debug, PartialEq, Eq)]
pub struct Offer {
    pub mask: u16,
    pub hops: u32,
}

// How a source is accepted.
#[derive(Clone, Copy, Debug, PartialEq, Eq)]
pub enum Kind {
    Home,
    Assured(Offer),
    Lent(Offer),
    Detour(Offer),
}

impl Kind {
    // Its offer; at home an empty one of no hops, as it crosses to C.
    pub fn offer(self) -> Offer
        ensures mask { result.mask ≡ mask_of (deciding.chosen self) }
        ensures hops { result.hops ≡ hops_of (deciding.chosen self) }
    {
        match self {
            Kind::Home => Offer { mask: 0, hops: 0 },
            Kind::Assured(offer) | Kind::Lent(offer) | Kind::Detour(offer) => offer,
        }
    }
}

// A source that has its own bit: assured by the mask P, unless it is empty.
fn assured(p: u16, hops: u32) -> Result<Kind, Refusal>
    ensures { (q : ℕ) → deciding.said result ≡ choose true p q hops }
{
    if p == 0 {
        return Err(Refusal::NotBorneOut);
    }
    Ok(Kind::Assured(Offer { mask: p, hops }))
}

// A source with neither its own bit nor a lent one: a detour by the mask Q, unless it is empty.
fn detour(q: u16, hops: u32) -> Result<Kind, Refusal>
    requires { hops ≤ 16 }
    ensures { deciding.said result ≡ choose false 0 q hops }
{
    if q == 0 {
        return Err(Refusal::NoRoute);
    }
    Ok(Kind::Detour(Offer {
        mask: q,
        hops: hops + 2,
    }))
}

// What the mask P says at a later node.
fn proceed(p: u16) -> Result<Option<u16>, Refusal>
    ensures { hopping.said result ≡ proceed p }
{
    if p == 0 {
        return Err(Refusal::NothingToOffer);
    }
    Ok(Some(p))
}

// A message whose tests have passed: the report and the vectors, the node where it is, and the destination relative to that.
#[derive(Drop)]
struct Message<'a> {
    report: &'a Report<'a>,
    vectors: &'a [u16],
    node: Node,
    nav: Nav,
    ghost small: { report.now.n ≤ 10 },
    ghost links_sized: { length report.now.links.now ≡ 2 ^ report.now.n },
    ghost vectors_sized: { length vectors.now ≡ 2 ^ report.now.n },
    ghost node_inside: { node.0 < 2 ^ report.now.n },
    ghost nav_inside: { nav.0 < 2 ^ report.now.n },
}

impl Message<'_> {
    // The mask of the dimensions among dims whose neighbour has bit k, as registered here.
    fn mask(&self, dims: u16, k: u32) -> u16
        requires { k ≤ 16 }
        ensures { let here = self.now in
            let n = here.report.now.n in
            result ≡ offer n (cut here.report.now.links.now) (own here.vectors.now k) dims here.node.0 }
    {
        held::heard(self.report, self.vectors, self.node, k) & dims
    }

    // The mask of the spare dimensions.
    fn spare(&self) -> u16
        ensures { result ≡ spare self.now.report.now.n self.now.nav.0 }
    {
        let all: u16 = 1 << self.report.n;
        all - 1 - self.nav.0
    }

    // The rule at the source, H hops from the destination.
    fn at_source(&self) -> Result<Kind, Refusal>
        ensures { let here = self.now in
            let n = here.report.now.n in
            let rule = at_source n (cut here.report.now.links.now) (own here.vectors.now) in
            deciding.said result ≡ rule here.node.0 here.nav.0 (weight here.nav.0) }
    {
        if self.nav.arrived() {
            return Ok(Kind::Home);
        }
        let h = self.nav.weight();
        let p = self.mask(self.nav.0, h - 1);
        if held::own(self.vectors, self.node, h) {
            return assured(p, h);
        }
        if p != 0 {
            return Ok(Kind::Lent(Offer { mask: p, hops: h }));
        }
        detour(self.mask(self.spare(), h + 1), h)
    }

    // The rule at a later node.
    fn at_node(&self) -> Result<Option<u16>, Refusal>
        ensures { let here = self.now in
            let n = here.report.now.n in
            let rule = at_node n (cut here.report.now.links.now) (own here.vectors.now) in
            hopping.said result ≡ rule here.node.0 here.nav.0 (weight here.nav.0) }
    {
        if self.nav.arrived() {
            return Ok(None);
        }
        let away = self.nav.weight();
        proceed(self.mask(self.nav.0, away - 1))
    }
}

// What Decide tests before its rule, of a message at a for d. The vectors are no part of the report, since Fill and Journey write them.
#[tactic(auto, using(cube::proofs::Refusals::tests_in_turn), unfolding(rules::specs::Refusals::decide_refusal))]
pub fn tested(report: &Report, vectors: &[u16], a: Node, d: Node) -> Result<(), Refusal>
    ensures { refused_by result ≡ decide_refusal (reported report.now) vectors.now a.0 d.0 }
{
    Refusal::Dimension.unless(report.has_dimension())?;
    Refusal::Length.unless(report.is_sized(vectors))?;
    Refusal::Address.unless(report.has_node(a) & report.has_node(d))?;
    Refusal::Source.unless(report.works(a))?;
    Refusal::Destination.unless(report.works(d))
}

// Decide: the decision at a source s for a destination d, over lent vectors.
pub fn decide(report: &Report, vectors: &[u16], s: Node, d: Node) -> Result<Kind, Refusal>
    ensures { deciding.said result ≡ decide (reported report.now) vectors.now s.0 d.0 }
{
    tested(report, vectors, s, d)?;
    let message = Message {
        report,
        vectors,
        node: s,
        nav: s.to(d),
    };
    message.at_source()
}

// Hop: the hop at a later node a with a relative address, over lent vectors. Its tests are Decide's for the node that lies there from a.
pub fn hop(report: &Report, vectors: &[u16], a: Node, nav: Nav) -> Result<Option<u16>, Refusal>
    ensures { hopping.said result ≡ hop (reported report.now) vectors.now a.0 nav.0 }
{
    tested(report, vectors, a, a.at(nav))?;
    let message = Message {
        report,
        vectors,
        node: a,
        nav,
    };
    message.at_node()
}

// For every input the contract of `decide` allows one answer.
pub fn one_decision()
    ensures { OneAnswer deciding.said }
{}

// For every input the contract of `hop` allows one answer.
pub fn one_step()
    ensures { OneAnswer hopping.said }
{}
