// The listing of a record, as text in a lent buffer.
#![tactic(auto)]

ghost use Rattle.std.specs.Prelude.{◌≡◌, ◌++◌, ◌^◌, ◌≤◌, length, take, drop, replicate};
ghost use Rattle.cube.specs.Reply.{accepted};
ghost use Rattle.report.specs.Report.{reported, cube};
ghost use Rattle.safety.specs.Safety.{vectors};
ghost use Rattle.io.specs.Counts.{IsPrefixLen};
ghost use Rattle.lines.specs.Text.{joined};
ghost use Rattle.lines.specs.Put.{Puts};
ghost use Rattle.text.specs.Listing as spec;
ghost use Rattle.text.specs.Fit.{held_bits, Fits, Answers};

use cube::{Node, Refusal};
use lines::Page;
use report::{Class, Report};

// The bytes of the longest listing: the header and 1,024 lines.
pub const LONGEST: usize = 24584;

// Room for the longest listing.
pub fn buffer() -> [u8; LONGEST]
    ensures { result ≡ replicate 24584 0 }
{
    [0; LONGEST]
}

// The name of a class between two spaces; not by `Display`, whose bytes would reach the page by std's writer over a slice (see `Page`).
#[tactic(auto, unfolding(crate::specs::Listing::spaced))]
fn name_of(class: Class) -> &'static str
    ensures { result.now ≡ spec.spaced class }
{
    match class {
        Class::Silent => " silent ",
        Class::Working => " working ",
        Class::Late => " late ",
        Class::Down => " down ",
        Class::Empty => " empty ",
    }
}

// Puts the own bits 1 to n of a node as one row of digits.
fn put_bits(page: &mut Page, n: u32, vectors: &[u16], a: Node)
    ensures { let bits = held_bits vectors.now a.0 in
        Puts (spec.row bits n) page.old page.new }
{
    for k in 0..n {
        page.put_byte(b'0' + u8::from(held::own(vectors, a, k + 1)));
    }
}

// Puts the line of a node of this class: its number, its class and its bits.
fn put_line(page: &mut Page, n: u32, class: Class, vectors: &[u16], a: Node)
    ensures { let line = spec.line n class (held_bits vectors.now a.0) a.0 in
        Puts line page.old page.new }
{
    page.put_number(a.0 as u64);
    page.put(name_of(class).as_bytes());
    put_bits(page, n, vectors, a);
    page.put_byte(b'\n');
}

// Puts the lines of all nodes.
fn put_lines(page: &mut Page, report: &Report, vectors: &[u16])
    requires { length report.now.status.now ≤ 1024 }
    ensures { let R = reported report.now in
        let lines = joined (spec.line_of R.dim R.status (held_bits vectors.now)) (length R.status) in
        Puts lines page.old page.new }
{
    for (a, byte) in report.status.iter().enumerate() {
        put_line(page, report.n, Class::from(*byte), vectors, Node(a as u16));
    }
}

// Room for the vectors of the largest cube. As a literal in its caller it made goals that `search` gave up on.
fn room() -> [u16; 1024]
    ensures { 1024 ≡ length result }
{
    [0; 1024]
}

// The vectors of an accepted report, in the first places.
fn vectors_of(report: &Report) -> [u16; 1024]
    requires { Fits (reported report.now) }
    ensures long { 1024 ≡ length result }
    ensures words { let nodes = 2 ^ report.now.n in
        take nodes result ≡ vectors (cube (reported report.now)) }
{
    let mut vectors = room();
    let nodes = report.status.len();
    vectors::fill(report, &mut vectors[..nodes]).unwrap();
    vectors
}

// Puts the listing of an accepted report.
fn put_cube(page: &mut Page, report: &Report)
    requires { Fits (reported report.now) }
    ensures { let R = reported report.now in
        Puts (spec.listed (accepted R.dim) R.status R.links) page.old page.new }
{
    let vectors = vectors_of(report);
    page.put_titled(b"cube", report.n as u64);
    put_lines(page, report, &vectors);
}

// What Open reads of all of standard input; over 4,096 bytes are refused by 10.
// The programs' `open` makes this test and call for the dimension alone; one function for both, with lent room, has two clauses more: no plainer.
fn opened<'a>(
    bytes: &[u8],
    status: &'a mut [u8; 1024],
    links: &'a mut [u16; 1024],
) -> Result<Report<'a>, Refusal>
    requires { (status.old ≡ replicate 1024 0) × (links.old ≡ replicate 1024 0) }
    ensures { Answers bytes.now result }
{
    Refusal::Malformed.unless(bytes.len() <= 4096)?;
    let n = record::open(bytes, status, links)?;
    let nodes = 1 << n;
    Ok(Report {
        n,
        status: &status[..nodes],
        links: &links[..nodes],
    })
}

// Puts the listing of all of standard input at the start of the buffer, and gives its length.
pub fn listing(bytes: &[u8], out: &mut [u8; LONGEST]) -> usize
    ensures count { IsPrefixLen result out.new }
    ensures length { result ≡ length (spec.listing bytes.now) }
    ensures text { out.new ≡ spec.listing bytes.now ++ drop result out.old }
{
    let mut page = Page::new(out);
    let mut status = [0; 1024];
    let mut links = [0; 1024];
    match opened(bytes, &mut status, &mut links) {
        Ok(report) => put_cube(&mut page, &report),
        Err(refusal) => page.put_titled(b"refused", u32::from(refusal) as u64),
    }
    page.at
}
