// The jobs.
use crate::given::Given;
use crate::say::{self, Answer};
use cube::{Nav, Node, Refusal};
use report::Report;
use std::io::Stdout;

// Where a message goes from s to d, with a dimension crossed.
fn address(dimension: u32, s: Node, d: Node) -> Answer {
    let nav = s.to(d).crossed(dimension);
    Answer::Address(nav, s.at(nav))
}

// Prints the listing of a record on one line, | for each line's end.
fn listing(out: Stdout, record: &[u8]) {
    let mut listed = text::buffer();
    let length = text::listing(record, &mut listed);
    say::barred(out, &listed[..length]);
}

// What the job of a letter answers. The letter stays a byte: an enum would only add a match that makes it, no plainer.
fn answer(job: u8, given: &mut Given) -> Result<Answer, Refusal> {
    let (n, a, b) = (given.n, given.a, given.b);
    let bytes = given.bytes.items();
    let vectors = given.vectors.items_mut();
    let more = given.more.items_mut();
    let path = given.path.items_mut();
    let report = Report {
        n,
        status: bytes,
        links: given.links.items(),
    };
    let (s, d) = (Node(a), Node(b));
    match job {
        b'a' => Ok(address(n, s, d)),
        b'f' => vectors::fill(&report, vectors).map(|()| Answer::Filled),
        b'd' => routing::decide(&report, vectors, s, d).map(Answer::Decided),
        b'h' => routing::hop(&report, vectors, s, Nav(b)).map(Answer::Hopped),
        b'j' => journey::journey(&report, vectors, more, path, s, d).map(Answer::Made),
        b'o' => record::open(bytes, more, vectors).map(Answer::Opened),
        b'r' => status_log::refresh(n, a, bytes, more).map(Answer::Refreshed),
        b'u' => status_log::update(n, a, bytes, more).map(Answer::Refreshed),
        _ => Ok(Answer::Malformed),
    }
}

// Runs the job of a letter, and prints what it answers and what it leaves in the memory that it was lent.
pub(crate) fn run(out: Stdout, job: u8, given: &mut Given) {
    if job == b'l' {
        return listing(out, given.bytes.items());
    }
    let _ = match answer(job, given) {
        Ok(answer) => print!(out; "{answer}"),
        Err(refusal) => print!(out; "{refusal}"),
    };
    say::memory(out, job, given);
}
