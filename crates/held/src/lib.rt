// What the boards hold: the bits read off lent vectors, which may be wrong, and the links that count as faulty.
#![tactic(auto)]

ghost use Rattle.std.specs.Prelude.{◌≡◌, ℕ, suc, ◌%◌, ◌^◌, ◌≤◌, ◌<◌, Bool, cond, length};
ghost use Rattle.cube.specs.Bits.{flip};
ghost use Rattle.cube.specs.Count.{one, pack};
ghost use Rattle.report.specs.Report.{cut};
ghost use Rattle.safety.specs.Safety.{registered};
ghost use Rattle.held.specs.Held.{held, own, fits, heard};

use cube::Node;
use report::Report;

// Bit k of a vector, as the number 1 or 0 that Fill adds up: bit 0, which is 1, is put below the others. A k from 32 on is taken as k % 32.
pub fn bit_of(word: u16, k: u32) -> u32
    ensures digit { result ≡ one (held word (k % 32)) }
    ensures small { result ≤ 1 }
{
    ((word as u32 * 2 + 1) >> (k % 32)) % 2
}

// Whether a vector has bit k; there is none above 16.
fn has(word: u16, k: u32) -> bool
    ensures { result ≡ held word k }
{
    k <= 16 && bit_of(word, k) == 1
}

// Own bit k of node a; a node past the end has none but bit 0.
pub fn own(vectors: &[u16], a: Node, k: u32) -> bool
    ensures { result ≡ own vectors.now k a.0 }
{
    match vectors.get(a.0 as usize) {
        Some(word) => has(*word, k),
        None => k == 0,
    }
}

// The neighbour of a along dimension i + 1. That i < 16 is asked here and twice below: a type for it would be made, and this proved, at each turn of a loop.
fn across(a: usize, i: u32) -> usize
    requires { i < 16 }
    ensures { result ≡ flip a (suc i) }
{
    a ^ (1 << i)
}

// Whether the link of a along dimension i + 1 counts as faulty.
fn faulty(links: &[u16], a: usize, i: u32) -> bool
    requires { (i < 16) × (a < length links.now) × (flip a (suc i) < length links.now) }
    ensures { result ≡ cut links.now a (suc i) }
{
    let word = report::joint(links[a], links[across(a, i)]);
    (word >> i) % 2 == 1
}

// Whether bit k of a's neighbour along dimension i + 1 is registered at a.
fn registered(links: &[u16], vectors: &[u16], a: usize, i: u32, k: u32) -> bool
    requires { (i < 16) × (k ≤ 16) × (a < length links.now) × (flip a (suc i) < length links.now) × (flip a (suc i) < length vectors.now) }
    ensures { result ≡ registered (cut links.now) (own vectors.now k) a (suc i) }
{
    !faulty(links, a, i) & (bit_of(vectors[across(a, i)], k) == 1)
}

// The mask of the dimensions i + 1, 1 to n, at whose i a test holds.
fn mask_of<F: Fn(u32) -> bool>(n: u32, test: F) -> u16
    requires small { n ≤ 10 }
    requires callable { (i : ℕ) → i < n → F.pre test i }
    ensures { (p : ℕ → Bool) → ((i : ℕ) (holds : Bool) → i < n → F.post test i holds → holds ≡ p (suc i)) → result ≡ pack p n }
{
    let mut mask: u16 = 0;
    for i in (0..n).rev() {
        mask = mask * 2 + test(i) as u16;
    }
    mask
}

// Whether there is one link word for each node of a cube of at most 1,024 boards, and a is one of them.
fn fits(report: &Report, a: Node) -> bool
    ensures { result ≡ fits report.now.n report.now.links.now a.0 }
{
    report.n <= 10 && (report.links.len() == 1 << report.n) & report.has_node(a)
}

// The mask of the dimensions along which bit k is registered at a; where that can't be read the empty one, as `heard` says.
pub fn heard(report: &Report, vectors: &[u16], a: Node, k: u32) -> u16
    ensures { result ≡ heard report.now.n report.now.links.now vectors.now a.0 k }
{
    let links = report.links;
    if !fits(report, a) {
        return 0;
    }
    if !((vectors.len() == links.len()) & (k <= 16)) {
        return 0;
    }
    let a = a.0 as usize;
    mask_of(report.n, |i| registered(links, vectors, a, i, k))
}

// The mask of the faulty links of node a; where that can't be read the empty one: its caller has tested, and would only unwrap.
pub fn faulty_links(report: &Report, a: Node) -> u16
    ensures { let links = report.now.links.now in
        result ≡ cond (fits report.now.n links a.0) (pack (cut links a.0) report.now.n) 0 }
{
    let links = report.links;
    if !fits(report, a) {
        return 0;
    }
    let a = a.0 as usize;
    mask_of(report.n, |i| faulty(links, a, i))
}
