// The controller's status log: status bytes made from its records.
#![tactic(auto)]

ghost use Rattle.std.specs.Prelude.{◌≡◌, true, cond, ◌<◌, leb, length, get_or, set};
ghost use Rattle.cube.specs.Refusals.{refused_by};
ghost use Rattle.cube.specs.Reply.{OneAnswer, refusal};
ghost use Rattle.log_rules.specs.Log.{records, node_in, skipped, age_byte};
ghost use Rattle.log_rules.specs.Refresh.{tests, log_refusal, refreshed, status_after, younger, updated, update_after};
ghost use Rattle.log_rules.specs.Sound.{sound};
ghost use Rattle.status_log.specs.Answer.{said};
ghost use Rattle.status_log.specs.Sweep.{sweep_in};

use cube::Refusal;
use record::word_at;
use std::str;

// The first record's refusal that has one; a record cut short at the end has one.
fn check_all(log: &[u8], n: u32) -> Result<(), Refusal>
    ensures { refused_by result ≡ refusal (tests n (records log.now)) }
{
    for row in log.chunks_exact(8) {
        log_record::check(row, n)?;
    }
    Refusal::LogRecord.unless(log.len() % 8 == 0)
}

// What is tested before anything is written. It takes what the C interface's jobs take; a struct for three functions would be no plainer.
#[tactic(auto, using(crate::proofs::Refusals::log_in_turn), unfolding(report::specs::Report::sized))]
fn tested(n: u32, log: &[u8], status: &[u8]) -> Result<(), Refusal>
    ensures { refused_by result ≡ log_refusal n log.now status.now }
{
    Refusal::Dimension.unless(report::dimension(n))?;
    Refusal::Length.unless(report::sized(n, status.len()))?;
    check_all(log, n)
}

// Lets a record of this age speak for its node.
fn put(row: &[u8], age: u16, status: &mut [u8])
    requires { node_in row.now < length status.old }
    ensures { let before = status.old in
        let node = node_in row.now in
        status.new ≡ set before node (younger (get_or before node 0) (cond (leb 32768 age) 0 (age_byte age))) }
{
    let board = &mut status[usize::from(word_at(row, 6))];
    *board = log_record::younger(*board, log_record::byte_of(age));
}

// Lets every record of a log speak, and counts those from the future.
fn put_all(log: &[u8], sweep: u16, status: &mut [u8]) -> usize
    requires { sound (length status.old) (records log.now) ≡ true }
    ensures count { result ≡ skipped sweep (records log.now) }
    ensures boards { status.new ≡ updated sweep log.now status.old }
{
    let mut count = 0;
    for row in log.chunks_exact(8) {
        let age = log_record::age(row, sweep);
        count += usize::from(log_record::is_future(age));
        put(row, age, status);
    }
    count
}

// Makes the status bytes of all 2^n nodes from a log, and answers how many of its records are from the future.
#[tactic(auto, using(crate::proofs::Refusals::log_answered), unfolding(log_rules::specs::Refresh::refreshed, log_rules::specs::Refresh::status_after))]
pub fn refresh(n: u32, sweep: u16, log: &[u8], status: &mut [u8]) -> Result<usize, Refusal>
    ensures answer { said result ≡ refreshed n sweep log.now status.old }
    ensures boards { status.new ≡ status_after n sweep log.now status.old }
{
    tested(n, log, status)?;
    status.fill(0);
    Ok(put_all(log, sweep, status))
}

// Refresh for a log that comes in parts of whole records: over status bytes that are all 0 before the first part.
// A function of its own, since both are jobs of the C interface; what they share is `tested` and `put_all`.
#[tactic(auto, using(crate::proofs::Refusals::log_answered), unfolding(log_rules::specs::Refresh::refreshed, log_rules::specs::Refresh::update_after))]
pub fn update(n: u32, sweep: u16, part: &[u8], status: &mut [u8]) -> Result<usize, Refusal>
    ensures answer { said result ≡ refreshed n sweep part.now status.old }
    ensures boards { status.new ≡ update_after n sweep part.now status.old }
{
    tested(n, part, status)?;
    Ok(put_all(part, sweep, status))
}

// The sweep that a text of decimal digits names.
pub fn sweep_of(text: &[u8]) -> Option<u16>
    ensures { result ≡ sweep_in text.now }
{
    if !text.iter().all(|byte| byte.is_ascii_digit()) {
        return None;
    }
    str::from_utf8(text).ok()?.parse().ok()
}

// For every input the contracts of `refresh` and `update` allow one answer; the status bytes are given by `status_after` and `update_after`.
pub fn one_answer()
    ensures { OneAnswer said }
{}
