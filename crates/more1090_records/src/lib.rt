// Records under C names: pages on paper, a line read back, and a log held against records.
#![tactic(auto)]

ghost use Rattle.std.specs.Prelude.{◌≡◌, length};
ghost use Rattle.page.specs.Pages.{pages_answer, pages_left};
ghost use Rattle.page.specs.Fields.{fields_of};
ghost use Rattle.more1090_records.specs.Flat.{flat_answer, flat_line, line_message};
ghost use Rattle.more1090_records.specs.LogInC.{flat_of, flat_comparison};

use log_compare::Counts;
use refusals::Refusal;

// What putting records on paper answers: refusal 0 is none; the value beside a refusal is the record at fault.
#[repr(C)]
#[derive(Clone, Copy)]
pub struct FlatPages {
    pub refusal: u64,
    pub value: u64,
    pub pages: u64,
}

// The fields of a line but its message; found is 0 where the bytes are no record's line: C has no `Option`.
#[repr(C)]
#[derive(Clone, Copy)]
pub struct FlatLine {
    pub found: u64,
    pub first: u64,
    pub kind: u64,
    pub count: u64,
    pub size: u64,
}

#[tactic(auto, unfolding(crate::specs::Flat::flat_answer))]
fn flat_pages(answer: Result<u64, Refusal>) -> FlatPages
    ensures { result ≡ flat_answer answer }
{
    match answer {
        Ok(n) => FlatPages {
            refusal: 0,
            value: 0,
            pages: n,
        },
        Err(q) => FlatPages {
            refusal: q.number(),
            value: refusals::values_of(q).value,
            pages: 0,
        },
    }
}

// Records of 66 bytes as pages of 4,380 bytes, from the start of out on.
#[unsafe(no_mangle)]
pub extern "C" fn more1090_pages(records: &[u8], out: &mut [u8]) -> FlatPages
    ensures { (result ≡ flat_answer (pages_answer records.now (length out.old))) × (out.new ≡ pages_left records.now out.old) }
{
    flat_pages(page::fill(records, out))
}

// The fields of a line of 72 bytes; its message goes to message, zeros behind it.
#[tactic(auto, unfolding(crate::specs::Flat::flat_line, crate::specs::Flat::line_message))]
#[unsafe(no_mangle)]
pub extern "C" fn more1090_page_line(line: &[u8], message: &mut [u8; 14]) -> FlatLine
    ensures { (result ≡ flat_line (fields_of line.now)) × (message.new ≡ line_message (fields_of line.now)) }
{
    match page::read(line) {
        Some(fields) => {
            let bytes = fields.message;
            *message = bytes;
            FlatLine {
                found: 1,
                first: fields.first,
                kind: u64::from(fields.kind),
                count: u64::from(fields.count),
                size: u64::from(fields.size),
            }
        }
        None => {
            *message = [0; 14];
            FlatLine {
                found: 0,
                first: 0,
                kind: 0,
                count: 0,
                size: 0,
            }
        }
    }
}

// The counts, or the refusal's number and value. Refusal 0 is none.
#[repr(C)]
#[derive(Clone, Copy)]
pub struct FlatCompared {
    pub pairs: u64,
    pub unheard: u64,
    pub unsent: u64,
    pub refusal: u64,
    pub value: u64,
}

#[tactic(auto, unfolding(crate::specs::LogInC::flat_of))]
fn flat(compared: Result<Counts, Refusal>) -> FlatCompared
    ensures { result ≡ flat_of compared }
{
    match compared {
        Ok(counts) => FlatCompared {
            pairs: counts.pairs as u64,
            unheard: counts.unheard as u64,
            unsent: counts.unsent as u64,
            refusal: 0,
            value: 0,
        },
        Err(refusal) => FlatCompared {
            pairs: 0,
            unheard: 0,
            unsent: 0,
            refusal: refusal.number(),
            value: refusals::values_of(refusal).value,
        },
    }
}

// A log of 23-byte entries against records of 66 bytes: the counts, and each entry's record and each record's entry by their indices. A refusal writes to neither list.
#[tactic(auto, unfolding(crate::specs::LogInC::flat_left, crate::specs::LogInC::flat_comparison))]
#[unsafe(no_mangle)]
pub extern "C" fn more1090_compare_log(
    log: &[u8],
    records: &[u8],
    tolerance: u64,
    partners: &mut [u64],
    owners: &mut [u64],
) -> FlatCompared
    ensures { record { compared = result; partners = partners.new; owners = owners.new } ≡ flat_comparison log.now records.now tolerance partners.old owners.old }
{
    flat(log_compare::compare_log(log, records, tolerance, partners, owners))
}
