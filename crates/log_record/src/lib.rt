// One record of the status log: its refusal, its age, and the status byte that it speaks for.
#![tactic(auto)]

ghost use Rattle.std.specs.Prelude.{◌≡◌, cond, leb, [], ◌∷◌};
ghost use Rattle.cube.specs.Refusals.{refused_by};
ghost use Rattle.cube.specs.Reply.{refusal};
ghost use Rattle.log_rules.specs.Log.{age, age_byte, well_formed};
ghost use Rattle.log_rules.specs.Refresh.{tests, younger};

use cube::{Node, Refusal};
use record::word_at;

// A record's age: the present sweep less its own, wrapping.
#[tactic(auto, using(log_rules::proofs::Bytes::age_wraps))]
pub fn age(row: &[u8], sweep: u16) -> u16
    ensures { result ≡ age sweep row.now }
{
    sweep.wrapping_sub(word_at(row, 4))
}

// Whether an age is from the future.
pub fn is_future(age: u16) -> bool
    ensures { result ≡ leb 32768 age }
{
    32768 <= age
}

// The status byte of an age; for one from the future 0, the byte of a board never heard.
#[tactic(auto, using(log_rules::proofs::Bytes::byte_ahead, log_rules::proofs::Bytes::byte_aged))]
pub fn byte_of(age: u16) -> u8
    ensures { result ≡ cond (leb 32768 age) 0 (age_byte age) }
{
    if is_future(age) {
        0
    } else {
        (age + 1).min(253) as u8
    }
}

// The younger of two status bytes, 0 being that of a board never heard.
#[tactic(auto, using(log_rules::proofs::Bytes::none_younger, log_rules::proofs::Bytes::younger_none, log_rules::proofs::Bytes::younger_min))]
pub fn younger(b: u8, c: u8) -> u8
    ensures { result ≡ younger b c }
{
    match (b, c) {
        (0, _) => c,
        (_, 0) => b,
        _ => b.min(c),
    }
}

// Whether a record is whole, its length 6 and its kind 2.
#[tactic(auto, unfolding(log_rules::specs::Log::well_formed))]
fn is_well_formed(row: &[u8]) -> bool
    ensures { result ≡ well_formed row.now }
{
    row.len() == 8 && word_at(row, 0) == 6 && word_at(row, 2) == 2
}

// A record's refusal, if it has one.
#[tactic(auto, using(cube::proofs::Refusals::tests_in_turn, log_rules::proofs::Refusals::malformed, log_rules::proofs::Refusals::by_node))]
pub fn check(row: &[u8], n: u32) -> Result<(), Refusal>
    ensures { refused_by result ≡ refusal (tests n (row.now ∷ [])) }
{
    Refusal::LogRecord.unless(is_well_formed(row))?;
    Refusal::LogNode.unless(report::has_node(n, Node(word_at(row, 6))))
}
