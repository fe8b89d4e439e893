// Whether records that come from outside are accepted (SPECIFICATION 4.7), and the first that is not. Each function is equal to a definition of specs/ on every input.
#![tactic(auto)]

ghost use Rattle.std.specs.Prelude.{◌≡◌};
ghost use Rattle.record_check.specs.Accepted.{type_length, accepted};
ghost use Rattle.record_check.specs.FirstFault.{first_fault};

use constants::RECORD_LEN;

// The largest first sample: no run is longer than 2^52 samples.
const LARGEST_FIRST: u64 = 0x10_0000_0000_0000;

// The largest count of samples.
const LARGEST_COUNT: u16 = 9999;

// Message types, and the message length of each.
const TYPES: u8 = 7;

const LENGTHS: [u8; 7] = [14, 7, 7, 7, 14, 14, 2];

// The message length of a type, 0 above the last.
#[tactic(auto, unfolding(crate::specs::Accepted::type_length))]
pub fn type_length(kind: u8) -> u8
    ensures { result ≡ type_length kind }
{
    if kind < TYPES {
        LENGTHS[kind as usize]
    } else {
        0
    }
}

// Whether the record at the start of the bytes is whole and accepted.
#[tactic(auto, using(crate::proofs::Accepting::number_is), unfolding(crate::specs::Accepted::accepted))]
pub fn accepts(rec: &[u8]) -> bool
    ensures { result ≡ accepted rec.now }
{
    rec.len() >= RECORD_LEN
        && le_read::number::<u64>(rec, 40) <= LARGEST_FIRST
        && rec[48] < TYPES
        && le_read::number::<u16>(rec, 49) <= LARGEST_COUNT
        && rec[51] == type_length(rec[48])
}

// The first record at fault, of as many as the bytes have whole.
// A place and no refusal, since a fault is what is searched for; which refusal it is, its caller says.
#[tactic(auto, unfolding(crate::specs::FirstFault::first_fault), using(crate::proofs::Searched::one_more, crate::proofs::Searched::found, crate::proofs::Searched::none_left))]
pub fn first_fault(records: &[u8]) -> Option<u64>
    ensures { result ≡ first_fault records.now }
{
    for k in 0..records.len() / RECORD_LEN {
        if !accepts(&records[k * RECORD_LEN..]) {
            return Some(k as u64);
        }
    }
    None
}
