// Printing on standard output: what the jobs answer, and what they leave.
use crate::given::{Given, LENT, List};
use cube::{Nav, Node};
use journey::Trip;
use routing::{Kind, Offer};
use std::fmt;
use std::io::Stdout;

// What a job answers that doesn't refuse.
#[derive(Clone, Copy)]
pub(crate) enum Answer {
    // A relative address, and where it leads.
    Address(Nav, Node),
    Filled,
    Decided(Kind),
    // The mask of a hop, if there is one to make.
    Hopped(Option<u16>),
    Made(Trip),
    Opened(u32),
    // How many records were skipped.
    Refreshed(usize),
    // There is no such job.
    Malformed,
}

// How a source is accepted, in words.
#[derive(Clone, Copy)]
struct Words(Kind);

impl fmt::Display for Words {
    fn fmt<W: fmt::Write>(&self, f: &mut fmt::Formatter<W>) -> fmt::Result {
        let word = match self.0 {
            Kind::Home => return write!(f, "home"),
            Kind::Assured(_) => "assured",
            Kind::Lent(_) => "lent",
            Kind::Detour(_) => "detour",
        };
        let Offer { mask, hops } = self.0.offer();
        write!(f, "{word}, mask {mask}, hops {hops}")
    }
}

impl fmt::Display for Answer {
    fn fmt<W: fmt::Write>(&self, f: &mut fmt::Formatter<W>) -> fmt::Result {
        match *self {
            Answer::Address(nav, there) => write!(
                f,
                "address {}, weight {}, leads to {}",
                nav.0,
                nav.weight(),
                there.0
            ),
            Answer::Filled => write!(f, "done"),
            Answer::Decided(kind) => write!(f, "{}", Words(kind)),
            Answer::Hopped(None) => write!(f, "arrived"),
            Answer::Hopped(Some(mask)) => write!(f, "mask {mask}"),
            Answer::Made(trip) => write!(f, "{}, came by {}", Words(trip.kind), trip.hops),
            Answer::Opened(n) => write!(f, "cube {n}"),
            Answer::Refreshed(skipped) => write!(f, "skipped {skipped}"),
            Answer::Malformed => write!(f, "malformed"),
        }
    }
}

// Prints a text. Where standard output can't be written, the answers that are missing tell it.
pub(crate) fn say(out: Stdout, text: &[u8]) {
    let _ = out.write_all(text);
}

// Prints lent memory after a job, and the place behind it.
fn left<T: Copy>(out: Stdout, name: &str, list: &List<T>)
where
    u16: From<T>,
{
    let _ = print!(out; ", {name}");
    if list
        .values
        .iter()
        .all(|value| u16::from(*value) == LENT as u16)
    {
        return say(out, b" unchanged");
    }
    for value in list.values.iter().take(list.size + 1) {
        let value = u16::from(*value);
        let _ = print!(out; " {value}");
    }
}

// Prints the memory that a job was lent, by the job's letter.
pub(crate) fn memory(out: Stdout, job: u8, given: &Given) {
    match job {
        b'f' => left(out, "vectors", &given.vectors),
        b'j' => {
            left(out, "vectors", &given.vectors);
            left(out, "path", &given.path);
        }
        b'o' => {
            left(out, "status", &given.more);
            left(out, "links", &given.vectors);
        }
        b'r' | b'u' => left(out, "status", &given.more),
        _ => {}
    }
}

// Does something with each line of a text, without its end.
pub(crate) fn each_line<F: FnMut(&[u8])>(text: &[u8], mut with: F)
    requires { F.IsAlwaysCallable with }
{
    for line in text.split_inclusive(|byte| *byte == b'\n') {
        with(line.strip_suffix(b"\n").unwrap_or(line));
    }
}

// Prints a text on one line, | for each line's end.
pub(crate) fn barred(out: Stdout, text: &[u8]) {
    each_line(text, |line| {
        say(out, line);
        say(out, b"|");
    });
}
