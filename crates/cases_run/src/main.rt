// Runs the cases on standard input and prints each with what its job answers and what that leaves in the memory that it was lent.
//
// A case is a line, and so is what is printed of it:
//
//     TITLE: JOB N A B b LIST l LIST v LIST m LIST w LIST
//     TITLE: ANSWER, NAME OF LENT MEMORY WORDS
//
// Numbers are decimal, one space apart: N is below 2^32, all others below 2^16. The last of N, A and B may be left out if they are 0.
// A list is its length, at most 8191, then its numbers; those that are left out are 99. An empty list may be left out with its letter.
// JOB is a letter:
//
//     a N S D      the relative address of nodes S and D with dimension N crossed, its weight, and where it leads from S
//     f N          Fill: b status, l links, v vectors (lent)
//     d N S D      Decide: b status, l links, v vectors
//     h N A NAV    Hop: b status, l links, v vectors
//     j N S D      Journey: b status, l links, v vectors (lent), m picks, w path (lent)
//     o 0          Open: b record, m status (lent), v links (lent)
//     r N SWEEP    Refresh: b log, m status (lent)
//     u N SWEEP    Update: b part of a log, m status (lent)
//     l 0          the listing, | for a line's end: b record
//
// Lent memory is printed with the place behind it, which is 99; `unchanged` if all is 99.
#![tactic(auto)]

mod given;
mod jobs;
mod say;

ghost use Rattle.std.specs.Prelude.{◌≡◌, length};

// One byte more than the cases may have.
const ROOM: usize = 131073;

// Room for the cases.
fn room() -> [u8; ROOM]
    ensures { 131073 ≡ length result }
{
    [0; ROOM]
}

// Reads all cases, then runs them.
fn main(rt: HostRuntime) {
    let out = rt.stdout();
    let mut text = room();
    match program::read_all(&mut rt.stdin(), &mut text) {
        Err(_) => say::say(out, b"cases_run: standard input can't be read\n"),
        Ok(ROOM) => say::say(
            out,
            b"cases_run: standard input is longer than 131072 bytes\n",
        ),
        Ok(count) => say::each_line(&text[..count], |line| given::case(out, line)),
    }
}
