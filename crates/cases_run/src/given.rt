// A line taken apart: its title, its job, and the numbers and lists that it gives.
ghost use Rattle.std.specs.Prelude.{◌≤◌};

use crate::{jobs, say};
use std::io::Stdout;
use std::str::{self, FromStr};

// What a list has behind its numbers, and lent memory before a job.
pub(crate) const LENT: u8 = 99;

// A list with 99s behind it, all of which is printed: so an array and a size, and no slice.
#[derive(Drop)]
pub(crate) struct List<T> {
    pub(crate) values: [T; 8192],
    pub(crate) size: usize,
    ghost fits: { size ≤ 8191 },
}

impl<T> List<T> {
    // Its numbers.
    pub(crate) fn items(&self) -> &[T] {
        &self.values[..self.size]
    }

    // Its numbers, as lent memory. In one expression, as in `items`, its proof did not close.
    pub(crate) fn items_mut(&mut self) -> &mut [T] {
        let size = self.size;
        let values = &mut self.values;
        let all = &mut values[..];
        &mut all[..size]
    }
}

// What a case gives its job: numbers, status bytes and links, and the memory that it is lent.
#[derive(Drop)]
pub(crate) struct Given {
    pub(crate) n: u32,
    pub(crate) a: u16,
    pub(crate) b: u16,
    pub(crate) bytes: List<u8>,
    pub(crate) links: List<u16>,
    pub(crate) vectors: List<u16>,
    pub(crate) more: List<u8>,
    pub(crate) path: List<u16>,
}

// The number after a space at the start of the rest of a line, taken off it; if there is none of this type, the rest stays.
fn number<T: FromStr>(rest: &mut &[u8]) -> Option<T>
where
    T::Err: Drop,
{
    let text = rest.strip_prefix(b" ")?;
    let end = text
        .iter()
        .position(|byte| !byte.is_ascii_digit())
        .unwrap_or(text.len());
    let (digits, behind) = text.split_at(end);
    let value = str::from_utf8(digits).ok()?.parse().ok()?;
    *rest = behind;
    Some(value)
}

// The length of a list at the start of the rest of a line, taken off it; if there is none up to 8,191, it is 0, as of a list left out, and the rest stays.
fn size(rest: &mut &[u8]) -> usize
    ensures { result ≤ 8191 }
{
    let mut ahead = *rest;
    match number::<u16>(&mut ahead) {
        Some(size) if size <= 8191 => {
            *rest = ahead;
            size as usize
        }
        _ => 0,
    }
}

impl<T: FromStr + Copy + From<u8>> List<T>
where
    T::Err: Drop,
{
    // No numbers, and 99s alone.
    fn empty() -> List<T> {
        List {
            values: [T::from(LENT); 8192],
            size: 0,
        }
    }

    // Takes the list that a letter heads off the start of the rest of a line; if there is none, this stays empty and the rest stays.
    fn read(&mut self, rest: &mut &[u8], head: u8) {
        let Some(text) = rest.strip_prefix(&[b' ', head]) else {
            return;
        };
        *rest = text;
        let size = size(rest);
        self.size = size;
        for place in self.values.iter_mut().take(size) {
            match number(rest) {
                Some(value) => *place = value,
                None => break,
            }
        }
    }
}

impl Given {
    // What an empty line gives.
    fn empty() -> Given {
        Given {
            n: 0,
            a: 0,
            b: 0,
            bytes: List::empty(),
            links: List::empty(),
            vectors: List::empty(),
            more: List::empty(),
            path: List::empty(),
        }
    }

    // Takes what the rest of a line gives, and says whether nothing of it is left over. In place, so that no list is moved.
    fn read(&mut self, line: &[u8]) -> bool {
        let mut rest = line;
        self.n = number(&mut rest).unwrap_or(0);
        self.a = number(&mut rest).unwrap_or(0);
        self.b = number(&mut rest).unwrap_or(0);
        self.bytes.read(&mut rest, b'b');
        self.links.read(&mut rest, b'l');
        self.vectors.read(&mut rest, b'v');
        self.more.read(&mut rest, b'm');
        self.path.read(&mut rest, b'w');
        rest.is_empty()
    }
}

// Prints a line's title and runs its case.
pub(crate) fn case(out: Stdout, line: &[u8]) {
    let colon = line
        .iter()
        .position(|byte| *byte == b':')
        .unwrap_or(line.len());
    let Some([job, rest @ ..]) = line.get(colon + 2..) else {
        say::say(out, line);
        return say::say(out, b": malformed\n");
    };
    say::say(out, &line[..colon + 2]);
    let mut given = Given::empty();
    if given.read(rest) {
        jobs::run(out, *job, &mut given);
    } else {
        say::say(out, b"malformed");
    }
    say::say(out, b"\n");
}
