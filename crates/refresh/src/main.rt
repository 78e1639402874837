// Puts today's status bytes, made from the controller's log, into the record on standard input.
#![tactic(auto)]

use cube::Refusal;
use program::{Why, boards, read_all};
use record::word_at;
use report::Class;
use std::env::{Env, FillError};
use std::fs::File;
use std::io::Write;
use std::os::fd::AsRawFd;
use std::{fmt, io, str};

// Room for an argument. A path of this length or more can't be opened.
const ROOM: usize = 4096;

// What std puts after the system's words for an error, before the error's number.
const NUMBERED: &str = " (os error ";

// What is said on standard error in place of an answer.
#[derive(Drop)]
enum Fault<'a> {
    Arguments,
    Sweep,
    LongName,
    NoName,
    Log,
    NotOpened(&'a str, io::Error),
    LogRecord(LogWhy),
    // What every program over a record may say.
    Common(program::Fault<'a>),
}

// Why a log is refused: for which reason, in which of its records, and what is wrong with that.
#[derive(Clone, Copy)]
struct LogWhy {
    refusal: Refusal,
    which: usize,
    wrong: Wrong,
}

// What is wrong with a record of the log.
#[derive(Clone, Copy)]
enum Wrong {
    // Only so many of its bytes came.
    Short(usize),
    // Its length and its kind, one of which is another than a status record's.
    Kind(u16, u16),
    // Its node, and how many boards there are.
    Node(u16, usize),
    // Something that is no matter of a record.
    Other,
}

// What was read of a log: its records, and those of them skipped.
#[derive(Clone, Copy)]
struct Reading {
    records: usize,
    skipped: usize,
}

// The system's words for an error, without std's number.
fn words<'a>(error: &io::Error, room: &'a mut [u8; 128]) -> &'a str {
    let mut free: &mut [u8] = &mut *room;
    let _ = write!(free, "{error}");
    let left = free.len();
    let length = room.len().saturating_sub(left);
    let text = str::from_utf8(&room[..length]).unwrap_or("");
    text.split_once(NUMBERED).map_or(text, |parts| parts.0)
}

impl fmt::Display for Fault<'_> {
    fn fmt<W: fmt::Write>(&self, f: &mut fmt::Formatter<W>) -> fmt::Result {
        match self {
            Fault::Arguments => write!(f, "give the present sweep and the log's file name"),
            Fault::Sweep => write!(f, "the present sweep is a number from 0 to 65535"),
            Fault::LongName => write!(f, "the log's file name is too long"),
            Fault::NoName => write!(f, "the log's file name is empty"),
            Fault::Log => write!(f, "the log can't be read"),
            Fault::NotOpened(path, error) => {
                let mut room = [0; 128];
                let why = words(error, &mut room);
                write!(f, "the log {path}: {why}")
            }
            Fault::LogRecord(why) => write!(f, "{why}"),
            Fault::Common(fault) => write!(f, "{fault}"),
        }
    }
}

impl<'a> From<program::Fault<'a>> for Fault<'a> {
    // One of these.
    fn from(fault: program::Fault<'a>) -> Self {
        Fault::Common(fault)
    }
}

impl fmt::Display for LogWhy {
    fn fmt<W: fmt::Write>(&self, f: &mut fmt::Formatter<W>) -> fmt::Result {
        let LogWhy {
            refusal,
            which,
            wrong,
        } = *self;
        write!(f, "{refusal}: ")?;
        match wrong {
            Wrong::Short(came) => write!(
                f,
                "the log ends within its record {which}: {came} of 8 bytes came"
            ),
            Wrong::Kind(length, kind) => write!(
                f,
                "the log's record {which} has length {length} and kind {kind}, and a status record has 6 and 2"
            ),
            Wrong::Node(node, boards) => write!(
                f,
                "the log's record {which} names node {node}, which a cabinet of {boards} boards lacks"
            ),
            Wrong::Other => write!(f, "the log is refused"),
        }
    }
}

impl Wrong {
    // What is wrong with a log's record, which is refused for this reason.
    fn of_record(row: &[u8], refusal: Refusal, n: u32) -> Wrong {
        match refusal {
            Refusal::LogRecord if row.len() < 8 => Wrong::Short(row.len()),
            Refusal::LogRecord => Wrong::Kind(word_at(row, 0), word_at(row, 2)),
            Refusal::LogNode => Wrong::Node(word_at(row, 6), boards(n)),
            _ => Wrong::Other,
        }
    }
}

impl LogWhy {
    // Why a part of a log is refused, after so many records before the part: its first refused record tells.
    fn of(refusal: Refusal, before: usize, part: &[u8], n: u32) -> LogWhy {
        let at = part
            .chunks(8)
            .position(|row| log_record::check(row, n).is_err())
            .unwrap_or(part.len() / 8);
        let row = part.chunks(8).nth(at).unwrap_or(&[]);
        LogWhy {
            refusal,
            which: before.saturating_add(at).saturating_add(1),
            wrong: Wrong::of_record(row, refusal, n),
        }
    }
}

impl Reading {
    // After one more part, of whole records, of which so many were skipped.
    fn after(self, part: &[u8], skipped: usize) -> Reading {
        Reading {
            records: self.records.saturating_add(part.len() / 8),
            skipped: self.skipped.saturating_add(skipped),
        }
    }
}

// What the arguments ask: the log, opened, and the present sweep.
#[derive(Drop)]
struct Asked {
    log: File,
    sweep: u16,
}

impl Asked {
    // Reads the log to its end, 65,536 bytes at a time, and lets it speak. The turns only bound the loop: no log uses them up.
    fn read<'a>(&mut self, n: u32, status: &mut [u8]) -> Result<Reading, Fault<'a>> {
        let mut room = [0; 65536];
        let mut reading = Reading {
            records: 0,
            skipped: 0,
        };
        for _ in 0..u64::MAX {
            let count = read_all(&mut self.log, &mut room).map_err(|_| Fault::Log)?;
            let part = &room[..count];
            let skipped = status_log::update(n, self.sweep, part, status).map_err(|refusal| {
                Fault::LogRecord(LogWhy::of(refusal, reading.records, part, n))
            })?;
            reading = reading.after(part, skipped);
            if count < room.len() {
                return Ok(reading);
            }
        }
        Err(Fault::Log)
    }
}

// How many boards are of a class.
fn count(status: &[u8], class: Class) -> usize {
    status
        .iter()
        .filter(|byte| Class::from(**byte) == class)
        .count()
}

// Says what was read and how the boards stand, and warns where none works. No log says that a board is down or that a slot is empty.
fn tell(rt: &HostRuntime, reading: Reading, sweep: u16, status: &[u8]) {
    let Reading { records, skipped } = reading;
    let _ = eprintln!(rt;
        "refresh: records read: {records}, of these from the future and skipped: {skipped}"
    );
    let silent = count(status, Class::Silent);
    let working = count(status, Class::Working);
    let late = count(status, Class::Late);
    let _ = eprintln!(rt; "refresh: boards silent: {silent}, working: {working}, late: {late}");
    if working == 0 {
        let _ = eprintln!(rt;
            "refresh: warning: no board works at sweep {sweep}; is that the present sweep?"
        );
    }
}

// Prints the record with the log's status bytes in place of its own. No board is heard before the log speaks.
fn refresh<'a>(rt: &HostRuntime, asked: &mut Asked, bytes: &'a mut [u8]) -> Result<(), Fault<'a>> {
    // By `match`: a closure for `map_err` would take the bytes, which are written below.
    let n = match program::open(bytes) {
        Ok(n) => n,
        Err(refusal) => return Err(program::Fault::Record(Why { refusal, bytes }).into()),
    };
    let mut space = [0; 1024];
    let status = &mut space[..boards(n)];
    let reading = asked.read(n, status)?;
    record::restate(bytes, status);
    rt.stdout()
        .write_all(bytes)
        .map_err(|_| program::Fault::Output)?;
    tell(rt, reading, asked.sweep, status);
    Ok(())
}

// Reads the record on standard input, at most one byte more than a record may have, and refreshes it.
fn with_log<'a>(
    rt: &HostRuntime,
    mut asked: Asked,
    room: &'a mut [u8; 4097],
) -> Result<(), Fault<'a>> {
    let count = read_all(&mut rt.stdin(), room).map_err(|_| program::Fault::Input)?;
    refresh(rt, &mut asked, &mut room[..count])
}

// Opens the log of this name. Where standard input is closed, the log gets its number.
fn open_log<'a>(rt: &HostRuntime, path: &'a str) -> Result<File, Fault<'a>> {
    match File::open(rt, path) {
        Err(error) => Err(Fault::NotOpened(path, error)),
        Ok(log) if log.as_raw_fd() == rt.stdin().as_raw_fd() => Err(program::Fault::Input.into()),
        Ok(log) => Ok(log),
    }
}

// Takes the log's file name from the second argument.
fn name<'a>(rt: &HostRuntime, room: &'a mut [u8; ROOM]) -> Result<&'a [u8], Fault<'a>> {
    match rt.arg(2, room) {
        Err(_) => Err(Fault::LongName),
        Ok(0) => Err(Fault::NoName),
        Ok(length) => Ok(&room[..length]),
    }
}

// Whether there is an argument of this number.
fn is_given(rt: &HostRuntime, number: usize) -> bool {
    !matches!(rt.arg(number, &mut []), Err(FillError::NotPresent))
}

// Takes the present sweep from the first of two arguments.
fn sweep<'a>(rt: &HostRuntime) -> Result<u16, Fault<'a>> {
    if !is_given(rt, 2) || is_given(rt, 3) {
        return Err(Fault::Arguments);
    }
    let mut text = [0; ROOM];
    let length = rt.arg(1, &mut text).unwrap_or(0);
    status_log::sweep_of(&text[..length]).ok_or(Fault::Sweep)
}

// Says of a name that is no text, as the bytes that it is, that the log can't be opened.
fn not_text(rt: &HostRuntime, name: &[u8]) {
    let _ = eprint!(rt; "refresh: the log ");
    let _ = rt.stderr().write_all(name);
    let _ = eprintln!(rt; ": its name is not UTF-8");
}

// Does what the arguments ask.
fn run<'a>(
    rt: &HostRuntime,
    room: &'a mut [u8; ROOM],
    bytes: &'a mut [u8; 4097],
) -> Result<(), Fault<'a>> {
    let sweep = sweep(rt)?;
    let name = name(rt, room)?;
    match str::from_utf8(name) {
        Ok(path) => {
            let log = open_log(rt, path)?;
            with_log(rt, Asked { log, sweep }, bytes)
        }
        Err(_) => {
            // Said here: a fault is displayed, and these bytes are no text.
            not_text(rt, name);
            Ok(())
        }
    }
}

// Says what went wrong, where something did.
fn main(rt: HostRuntime) {
    let mut room = [0; ROOM];
    let mut bytes = [0; 4097];
    if let Err(fault) = run(&rt, &mut room, &mut bytes) {
        let _ = eprintln!(rt; "refresh: {fault}");
    }
}
