// The C interface: every job on numbers and slices alone.
#![tactic(auto)]

ghost use Rattle.std.specs.Prelude.{◌≡◌, ◌+◌, leb, length};
ghost use Rattle.cube.specs.Reply.{number_of};
ghost use Rattle.cube.specs.Refusals.{number_in, refused_by};
ghost use Rattle.report.specs.Class.{class_of};
ghost use Rattle.report.specs.Report.{report};
ghost use Rattle.vectors.specs.Fill.{fill, filled};
ghost use Rattle.rules.specs.Rules.{mask_of};
ghost use Rattle.rules.specs.Decide.{decide};
ghost use Rattle.rules.specs.Hop.{hop};
ghost use Rattle.routing.specs.Decide as deciding;
ghost use Rattle.routing.specs.Hop as hopping;
ghost use Rattle.journey.specs.Journey as travelling;
ghost use Rattle.record.specs.Open as opening;
ghost use Rattle.record.specs.Restate.{restated};
ghost use Rattle.log_rules.specs.Refresh as refreshing;
ghost use Rattle.status_log.specs.Answer as logging;
ghost use Rattle.deruvain.specs.Numbers.{class_number, kind_number, room_number, Says, Decided, Hopped, Travelled, Read, Skipped, Fixed};

use cube::{Nav, Node, Refusal};
use journey::Trip;
use report::{Class, Report};
use routing::Kind;

// A job's answer: the refusal's number, 0 for an acceptance, and the acceptance's numbers, 0 after a refusal.
#[repr(C)]
#[derive(Clone, Copy)]
pub struct Answer {
    pub refusal: u32,
    pub kind: u32,
    pub mask: u32,
    pub hops: u32,
}

// Open's answer: the refusal's number, 0 for none, and n, 0 after a refusal.
#[repr(C)]
#[derive(Clone, Copy)]
pub struct Opened {
    pub refusal: u32,
    pub n: u32,
}

// The answer of Refresh and Update, its own struct since C names its field: the refusal's number, 0 for none, and the records from the future skipped.
#[repr(C)]
#[derive(Clone, Copy)]
pub struct Refreshed {
    pub refusal: u32,
    pub skipped: usize,
}

// The class of a status byte: 0 silent, 1 working, 2 late, 3 down, 4 empty.
#[unsafe(no_mangle)]
pub extern "C" fn deruvain_class(byte: u8) -> u32
    ensures { result ≡ class_number (class_of byte) }
{
    Class::from(byte) as u32
}

// The number, for C, of a job that answers nothing else: its refusal's, 0 for none.
fn number(answer: Result<(), Refusal>) -> u32
    ensures { result ≡ refused_by answer }
{
    match answer {
        Ok(()) => 0,
        Err(refusal) => u32::from(refusal),
    }
}

// Fill: the refusal's number, 0 for done.
#[unsafe(no_mangle)]
pub extern "C" fn deruvain_fill(n: u32, status: &[u8], links: &[u16], vectors: &mut [u16]) -> u32
    ensures answer { result ≡ number_of (fill (report n status.now links.now) vectors.old) }
    ensures words { vectors.new ≡ filled (report n status.now links.now) vectors.old }
{
    number(vectors::fill(&Report { n, status, links }, vectors))
}

// The number of a kind, for C. A kind holds an offer, so that `as` gives none.
fn kind_number(kind: Kind) -> u32
    ensures { result ≡ kind_number (deciding.chosen kind) }
{
    match kind {
        Kind::Home => 0,
        Kind::Assured(_) => 1,
        Kind::Lent(_) => 2,
        Kind::Detour(_) => 3,
    }
}

// An acceptance's numbers.
fn accepted(kind: Kind, hops: u32) -> Answer
    ensures { Says result 0 (kind_number (deciding.chosen kind)) (mask_of (deciding.chosen kind)) hops }
{
    let mask = kind.offer().mask as u32;
    Answer {
        refusal: 0,
        kind: kind_number(kind),
        mask,
        hops,
    }
}

// A refusal's numbers, in C's struct.
fn refused(refusal: Refusal) -> Answer
    ensures { Says result (number_in refusal) 0 0 0 }
{
    Answer {
        refusal: u32::from(refusal),
        kind: 0,
        mask: 0,
        hops: 0,
    }
}

impl From<Result<Kind, Refusal>> for Answer {
    ghost from_gives = { λ decided answer. Decided answer (deciding.said decided) };

    // Decide's answer as numbers.
    fn from(decided: Result<Kind, Refusal>) -> Answer {
        match decided {
            Ok(kind) => accepted(kind, kind.offer().hops),
            Err(refusal) => refused(refusal),
        }
    }
}

impl From<Result<Option<u16>, Refusal>> for Answer {
    ghost from_gives = { λ hopped answer. Hopped answer (hopping.said hopped) };

    // Hop's answer as numbers.
    fn from(hopped: Result<Option<u16>, Refusal>) -> Answer {
        match hopped {
            Ok(None) => Answer {
                refusal: 0,
                kind: 0,
                mask: 0,
                hops: 0,
            },
            Ok(Some(mask)) => Answer {
                refusal: 0,
                kind: 1,
                mask: mask as u32,
                hops: 0,
            },
            Err(refusal) => refused(refusal),
        }
    }
}

impl From<Result<Trip, Refusal>> for Answer {
    ghost from_gives = { λ made answer. Travelled answer (travelling.said made) };

    // Journey's answer as numbers.
    fn from(made: Result<Trip, Refusal>) -> Answer {
        match made {
            Ok(trip) => accepted(trip.kind, trip.hops),
            Err(refusal) => refused(refusal),
        }
    }
}

impl From<Result<u32, Refusal>> for Opened {
    ghost from_gives = { λ read opened. Read opened (opening.said read) };

    // Open's answer as numbers.
    fn from(read: Result<u32, Refusal>) -> Opened {
        match read {
            Ok(n) => Opened { refusal: 0, n },
            Err(refusal) => Opened {
                refusal: u32::from(refusal),
                n: 0,
            },
        }
    }
}

impl From<Result<usize, Refusal>> for Refreshed {
    ghost from_gives = { λ read refreshed. Skipped refreshed (logging.said read) };

    // The answer of Refresh and Update as numbers.
    fn from(read: Result<usize, Refusal>) -> Refreshed {
        match read {
            Ok(skipped) => Refreshed {
                refusal: 0,
                skipped,
            },
            Err(refusal) => Refreshed {
                refusal: u32::from(refusal),
                skipped: 0,
            },
        }
    }
}

// Decide: kind 0 home, 1 assured, 2 lent, 3 detour.
#[unsafe(no_mangle)]
pub extern "C" fn deruvain_decide(
    n: u32,
    status: &[u8],
    links: &[u16],
    vectors: &[u16],
    source: u16,
    destination: u16,
) -> Answer
    ensures { let R = report n status.now links.now in
        Decided result (decide R vectors.now source destination) }
{
    let report = Report { n, status, links };
    Answer::from(routing::decide(&report, vectors, Node(source), Node(destination)))
}

// Hop: kind 0 arrived, 1 offered.
#[unsafe(no_mangle)]
pub extern "C" fn deruvain_hop(
    n: u32,
    status: &[u8],
    links: &[u16],
    vectors: &[u16],
    node: u16,
    relative: u16,
) -> Answer
    ensures { let R = report n status.now links.now in
        Hopped result (hop R vectors.now node relative) }
{
    let report = Report { n, status, links };
    Answer::from(routing::hop(&report, vectors, Node(node), Nav(relative)))
}

// Journey: the source's kind and mask, and the hops made.
#[unsafe(no_mangle)]
pub extern "C" fn deruvain_journey(
    n: u32,
    status: &[u8],
    links: &[u16],
    vectors: &mut [u16],
    picks: &[u8],
    path: &mut [u16],
    source: u16,
    destination: u16,
) -> Answer
    ensures answer { let R = report n status.now links.now in
        Travelled result (travelling.outcome (travelling.journey R vectors.old picks.now path.old source destination)) }
    ensures words { let R = report n status.now links.now in
        vectors.new ≡ travelling.vectors_after R vectors.old picks.now path.old source destination }
    ensures boards { let R = report n status.now links.now in
        path.new ≡ travelling.path_after R vectors.old picks.now path.old source destination }
{
    let report = Report { n, status, links };
    let (s, d) = (Node(source), Node(destination));
    Answer::from(journey::journey(&report, vectors, picks, path, s, d))
}

// Open: n.
#[unsafe(no_mangle)]
pub extern "C" fn deruvain_open(bytes: &[u8], status: &mut [u8], links: &mut [u16]) -> Opened
    ensures answer { Read result (opening.opened bytes.now status.old links.old) }
    ensures boards { status.new ≡ opening.status_opened bytes.now status.old links.old }
    ensures words { links.new ≡ opening.links_opened bytes.now status.old links.old }
{
    Opened::from(record::open(bytes, status, links))
}

// Refresh: the status bytes from a log, and how many of its records are from the future.
#[unsafe(no_mangle)]
pub extern "C" fn deruvain_refresh(n: u32, sweep: u16, log: &[u8], status: &mut [u8]) -> Refreshed
    ensures answer { Skipped result (refreshing.refreshed n sweep log.now status.old) }
    ensures boards { status.new ≡ refreshing.status_after n sweep log.now status.old }
{
    Refreshed::from(status_log::refresh(n, sweep, log, status))
}

// Update, Refresh for a log in parts: over the status bytes that the earlier parts gave, all 0 before the first.
#[unsafe(no_mangle)]
pub extern "C" fn deruvain_update(n: u32, sweep: u16, part: &[u8], status: &mut [u8]) -> Refreshed
    ensures answer { Skipped result (refreshing.refreshed n sweep part.now status.old) }
    ensures boards { status.new ≡ refreshing.update_after n sweep part.now status.old }
{
    Refreshed::from(status_log::update(n, sweep, part, status))
}

// Whether a record has room for these status bytes from its sixth byte on. `record::restate` tests the same, and doesn't say.
fn has_room(bytes: &[u8], status: &[u8]) -> bool
    ensures { result ≡ leb (5 + length status.now) (length bytes.now) }
{
    bytes
        .len()
        .checked_sub(5)
        .is_some_and(|room| status.len() <= room)
}

// Restate: the refusal's number, 0 for done.
#[unsafe(no_mangle)]
pub extern "C" fn deruvain_restate(bytes: &mut [u8], status: &[u8]) -> u32
    ensures answer { result ≡ room_number bytes.old status.now }
    ensures record { bytes.new ≡ restated bytes.old status.now }
{
    let fits = Refusal::Length.unless(has_room(bytes, status));
    record::restate(bytes, status);
    number(fits)
}

// For every input the contracts above allow one answer: what is said fixes each struct, and an equation each number and each lent slice.
pub fn one_answer()
    ensures decide { Fixed Decided }
    ensures hop { Fixed Hopped }
    ensures journey { Fixed Travelled }
    ensures opened { Fixed Read }
    ensures refresh { Fixed Skipped }
{}
