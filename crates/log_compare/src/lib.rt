// A log held against records (SPECIFICATION 13): what is refused, the pairing, written as two lists of indices, and the counts.
#![tactic(auto)]

ghost use Rattle.std.specs.Prelude.{◌≡◌, ◌+◌, ◌/◌, ◌<◌, length, Bool, true, cond, ◌≤◌, leb, ltb};
ghost use Rattle.log_theory.specs.Pairing.{near as nearOf, allowed as allowedOf, cand, better as betterOf, earliest as earliestOf};
ghost use Rattle.log_compare.specs.Capped.{capped};
ghost use Rattle.log_compare.specs.Entries.{sample_of, first_of, same_from, message_alike};
ghost use Rattle.log_compare.specs.Held.{logs_of};
ghost use Rattle.std.specs.Result.{result_err};
ghost use Rattle.log_compare.specs.LogChecks.{known_length, entry_accepted, log_accepted, lengths_fit, contents_refusal, compare_refusal};
ghost use Rattle.log_theory.specs.Report.{Lists, report_of};
ghost use Rattle.log_theory.specs.PairsModel.{free_in, Below, paired, pair_up, Back, Past};
ghost use Rattle.log_compare.specs.Paired.{paired_of};
ghost use Rattle.log_compare.specs.WindowModel.{limit_of};
ghost use Rattle.log_compare.specs.Comparison.{compared_of};

use constants::RECORD_LEN;
use refusals::Refusal;

// The sum, or 2^64 - 1 where it is larger.
#[tactic(auto, unfolding(crate::specs::Capped::capped))]
fn sum(a: u64, b: u64) -> u64
    ensures { result ≡ capped (a + b) }
{
    a.saturating_add(b)
}

// Whether h and f differ by at most d.
#[tactic(auto, using(crate::proofs::Tests::near_is))]
fn near(h: u64, f: u64, d: u64) -> bool
    ensures { result ≡ nearOf h f d }
{
    h.abs_diff(f) <= d
}

pub const ENTRY_LEN: usize = 23;

// Offsets in an entry (SPECIFICATION 13.1): the message's length and bytes.
pub const HEARD_LENGTH: usize = 8;

const HEARD_BYTES: usize = 9;

// Offsets in a record (SPECIFICATION 4.5).
const FIRST_SAMPLE: usize = 40;

const SENT_LENGTH: usize = 51;

const SENT_BYTES: usize = 52;

// No slice holds these many entries or records, and no offset below them overflows.
const TOO_MANY_ENTRIES: usize = 0x0800_0000_0000_0000;

const TOO_MANY_RECORDS: usize = 0x0200_0000_0000_0000;

// The sample of an entry, 0 past the end.
#[tactic(auto, unfolding(crate::specs::Entries::sample_of), using(crate::proofs::Bytes::sample_past))]
fn sample_at(log: &[u8], i: usize) -> u64
    ensures { result ≡ sample_of log.now i }
{
    if i < TOO_MANY_ENTRIES {
        return le_read::number::<u64>(log, ENTRY_LEN * i);
    }
    0
}

// The first sample of a record, 0 past the end.
#[tactic(auto, unfolding(crate::specs::Entries::first_of), using(crate::proofs::Bytes::first_past))]
fn first_at(records: &[u8], j: usize) -> u64
    ensures { result ≡ first_of records.now j }
{
    if j < TOO_MANY_RECORDS {
        return le_read::number::<u64>(records, RECORD_LEN * j + FIRST_SAMPLE);
    }
    0
}

// Whether n bytes of s from a are those of t from b, bytes past the end read as 0. Offsets, since a length of a record at fault runs past the end.
fn same_bytes(s: &[u8], a: usize, t: &[u8], b: usize, n: usize) -> bool
    requires { (a + n < 0x1_0000_0000_0000_0000) × (b + n < 0x1_0000_0000_0000_0000) }
    ensures { result ≡ same_from n s.now a t.now b }
{
    for k in 0..n {
        if le_read::byte_at(s, a + k) != le_read::byte_at(t, b + k) {
            return false;
        }
    }
    true
}

// A log held against records: the entries that the set heard, the records of what was sent, and how far apart the samples of a pair may lie.
#[derive(Clone, Copy)]
struct Heard<'a> {
    pub log: &'a [u8],
    pub records: &'a [u8],
    pub tolerance: u64,
}

impl<'a> Heard<'a> {
    // Whether the messages of entry i and record j have equal lengths, and equal bytes up to it.
    #[tactic(auto, unfolding(crate::specs::Entries::message_alike))]
    fn message_alike(self, i: usize, j: usize) -> bool
        requires { (i < length self.log.now / 23) × (j < length self.records.now / 66) }
        ensures { result ≡ message_alike self.entry.log.now self.entry.records.now i j }
    {
        let n = usize::from(self.log[ENTRY_LEN * i + HEARD_LENGTH]);
        let m = usize::from(self.records[RECORD_LEN * j + SENT_LENGTH]);
        n == m
            && same_bytes(
                self.log,
                ENTRY_LEN * i + HEARD_BYTES,
                self.records,
                RECORD_LEN * j + SENT_BYTES,
                n,
            )
    }

    // Whether entry i may be paired with record j: both are there, their messages are alike, and their samples differ by at most the tolerance.
    #[tactic(auto, unfolding(crate::specs::Entries::alike_of))]
    fn allowed(self, i: usize, j: usize) -> bool
        ensures { result ≡ allowedOf (logs_of self.entry) i j }
    {
        i < self.log.len() / ENTRY_LEN
            && j < self.records.len() / RECORD_LEN
            && near(
                sample_at(self.log, i),
                first_at(self.records, j),
                self.tolerance,
            )
            && self.message_alike(i, j)
    }
}

// The bytes of a message.
const MODE_AC_LEN: u8 = 2;

const SHORT_LEN: u8 = 7;

const LONG_LEN: u8 = 14;

// Whether messages have this length: 2, 7 or 14 bytes.
#[tactic(auto, unfolding(crate::specs::LogChecks::known_length))]
fn known_length(n: u8) -> bool
    ensures { result ≡ known_length n }
{
    n == MODE_AC_LEN || n == SHORT_LEN || n == LONG_LEN
}

// Whether entry i has a known length, and a sample not below that of the entry before it.
#[tactic(auto, unfolding(crate::specs::LogChecks::entry_accepted))]
fn entry_accepts(log: &[u8], i: usize) -> bool
    requires { i < length log.now / 23 }
    ensures { result ≡ entry_accepted log.now i }
{
    known_length(log[ENTRY_LEN * i + HEARD_LENGTH])
        && (i == 0 || sample_at(log, i - 1) <= sample_at(log, i))
}

fn log_accepts(log: &[u8]) -> bool
    ensures { result ≡ log_accepted log.now }
{
    for k in 0..log.len() / ENTRY_LEN {
        if !entry_accepts(log, k) {
            return false;
        }
    }
    true
}

// Whether the bytes are whole entries and records, and the lists have one number for each.
#[tactic(auto, unfolding(crate::specs::LogChecks::lengths_fit))]
fn lengths_fit(log: usize, records: usize, partners: usize, owners: usize) -> bool
    ensures { result ≡ lengths_fit log records partners owners }
{
    log % ENTRY_LEN == 0
        && records % RECORD_LEN == 0
        && partners == log / ENTRY_LEN
        && owners == records / RECORD_LEN
}

// A record at fault comes before the log.
#[tactic(auto, unfolding(crate::specs::LogChecks::contents_refusal, record_check::specs::FirstFault::record_refusal))]
fn contents(log: &[u8], records: &[u8]) -> Result<(), Refusal>
    ensures { result_err result ≡ contents_refusal log.now records.now }
{
    if let Some(k) = record_check::first_fault(records) {
        return Err(Refusal::Record(k));
    }
    if !log_accepts(log) {
        return Err(Refusal::Log);
    }
    Ok(())
}

// A log and records, with the lengths of the two lists that are to be written.
#[tactic(auto, unfolding(crate::specs::LogChecks::compare_refusal))]
fn check(log: &[u8], records: &[u8], partners: usize, owners: usize) -> Result<(), Refusal>
    ensures { result_err result ≡ compare_refusal log.now records.now partners owners }
{
    if !lengths_fit(log.len(), records.len(), partners, owners) {
        return Err(Refusal::Length);
    }
    contents(log, records)
}

// For no partner.
const NOBODY: u64 = 0xffff_ffff_ffff_ffff;

// What the search for an entry's record looks at: log and records, and each record's entry so far.
#[derive(Clone, Copy)]
struct Search<'a> {
    heard: Heard<'a>,
    owners: &'a [u64],
}

// The last first sample after which, though records fall by `back`, none that follows is allowed, or none is earlier than what was found.
#[tactic(auto, unfolding(crate::specs::WindowModel::limit_of))]
fn limit(records: &[u8], best: Option<usize>, latest: u64, back: u64) -> u64
    ensures { result ≡ limit_of (first_of records.now) back latest best }
{
    match best {
        None => latest,
        Some(g) => sum(first_at(records, g), back),
    }
}

// The mark, from the start where the log falls.
fn mark(lo: usize, previous: u64, h: u64) -> usize
    ensures { result ≡ cond (leb previous h) lo 0 }
{
    if previous <= h { lo } else { 0 }
}

impl<'a> Search<'a> {
    // Whether record j is free and allowed for entry i.
    fn candidate(self, i: usize, j: usize) -> bool
        requires { j < length self.owners.now }
        ensures { result ≡ cand (logs_of self.entry.heard) (free_in self.entry.owners.now) i j }
    {
        self.owners[j] == NOBODY && self.heard.allowed(i, j)
    }

    // The earlier one of what was found and record j.
    fn better(self, i: usize, j: usize, best: Option<usize>) -> Option<usize>
        requires { j < length self.owners.now }
        ensures { result ≡ betterOf (logs_of self.entry.heard) (free_in self.entry.owners.now) i j best }
    {
        if !self.candidate(i, j) {
            return best;
        }
        if let Some(g) = best {
            if first_at(self.heard.records, j) >= first_at(self.heard.records, g) {
                return best;
            }
        }
        Some(j)
    }

    // The earliest free and allowed record for entry i. Taken ones are passed by without a look at their bytes.
    fn earliest(self, i: usize, lo: usize, back: u64) -> Option<usize>
        requires { (lo ≤ length self.heard.records.now / 66) × (length self.owners.now ≡ length self.heard.records.now / 66) × Past (first_of self.heard.records.now) self.heard.tolerance (free_in self.owners.now) (sample_of self.heard.log.now i) lo × Back (first_of self.heard.records.now) (length self.heard.records.now / 66) back }
        ensures { (result ≡ earliestOf (logs_of self.entry.heard) (free_in self.entry.owners.now) i) × Below (length self.entry.heard.records.now / 66) result }
    {
        let h = sample_at(self.heard.log, i);
        let latest = sum(sum(h, self.heard.tolerance), back);
        let mut best = None;
        for j in lo..self.owners.len() {
            if self.owners[j] != NOBODY {
                continue;
            }
            let f = first_at(self.heard.records, j);
            let last = limit(self.heard.records, best, latest, back);
            if last < f {
                return best;
            }
            best = self.better(i, j, best);
        }
        best
    }

    // Whether record k is taken, or too early for an entry at sample h.
    #[tactic(auto, using(crate::proofs::Marks::gone_early))]
    fn gone(self, k: usize, h: u64) -> bool
        requires { k < length self.owners.now }
        ensures { result ≡ cond (free_in self.entry.owners.now k) (ltb (first_of self.entry.heard.records.now k + self.entry.heard.tolerance) h) true }
    {
        self.owners[k] != NOBODY || sum(first_at(self.heard.records, k), self.heard.tolerance) < h
    }

    // The mark moved past records that are taken or too early, for an entry at sample h that follows one at `previous`.
    fn advance(self, previous: u64, h: u64, lo: usize) -> usize
        requires { (lo ≤ length self.owners.now) × Past (first_of self.heard.records.now) self.heard.tolerance (free_in self.owners.now) previous lo }
        ensures { (result ≤ length self.entry.owners.now) × Past (first_of self.entry.heard.records.now) self.entry.heard.tolerance (free_in self.entry.owners.now) h result }
    {
        for k in mark(lo, previous, h)..self.owners.len() {
            if !self.gone(k, h) {
                return k;
            }
        }
        self.owners.len()
    }
}

// How far the records' first samples fall at most.
fn step_back(records: &[u8]) -> u64
    ensures { Back (first_of records.now) (length records.now / 66) result }
{
    let mut top: u64 = 0;
    let mut back: u64 = 0;
    for k in 0..records.len() / RECORD_LEN {
        let f = first_at(records, k);
        back = back.max(top.saturating_sub(f));
        top = top.max(f);
    }
    back
}

// A pair in both lists, where there is one.
fn settle(
    partners: &mut [u64],
    owners: &mut [u64],
    i: usize,
    p: Option<usize>,
    pairs: usize,
) -> usize
    requires { (i < length partners.old) × Below (length owners.old) p × (pairs < 0x1000_0000_0000_0000) }
    ensures { record { partners = partners.exit.now; owners = owners.new; pairs = result } ≡ paired (record { partners = partners.entry.now; owners = owners.old; pairs = pairs }) i p }
{
    if let Some(g) = p {
        partners[i] = g as u64;
        owners[g] = i as u64;
        return pairs + 1;
    }
    pairs
}

// Each entry's record, one entry after the other; the number of pairs.
fn pair_each(heard: Heard, back: u64, partners: &mut [u64], owners: &mut [u64]) -> usize
    requires { Back (first_of heard.records.now) (length heard.records.now / 66) back × (length partners.old ≡ length heard.log.now / 23) × (length owners.old ≡ length heard.records.now / 66) }
    ensures { record { partners = partners.exit.now; owners = owners.new; pairs = result } ≡ pair_up (logs_of heard.entry) (length heard.entry.log.now / 23) 0 (record { partners = partners.entry.now; owners = owners.old; pairs = 0 }) }
{
    let mut pairs: usize = 0;
    let mut lo: usize = 0;
    let mut previous: u64 = 0;
    for i in 0..heard.log.len() / ENTRY_LEN {
        let h = sample_at(heard.log, i);
        let search = Search { heard, owners };
        lo = search.advance(previous, h, lo);
        let p = search.earliest(i, lo, back);
        pairs = settle(partners, owners, i, p, pairs);
        previous = h;
    }
    pairs
}

// The pairing in two lists of fitting lengths.
fn pair_fitting(heard: Heard, partners: &mut [u64], owners: &mut [u64]) -> usize
    requires { (length partners.old ≡ length heard.log.now / 23) × (length owners.old ≡ length heard.records.now / 66) }
    ensures { record { partners = partners.exit.now; owners = owners.new; pairs = result } ≡ report_of (logs_of heard.entry) }
{
    partners.fill(NOBODY);
    owners.fill(NOBODY);
    let back = step_back(heard.records);
    pair_each(heard, back, partners, owners)
}

// The pairing, in two lists with one number for each entry and each record; the number of pairs. Lists of other lengths are left as they are.
#[tactic(auto, unfolding(crate::specs::Paired::paired_of))]
fn pair_up(heard: Heard, partners: &mut [u64], owners: &mut [u64]) -> usize
    ensures { record { partners = partners.exit.now; owners = owners.new; pairs = result } ≡ paired_of heard.entry.log.now heard.entry.records.now heard.entry.tolerance partners.entry.now owners.old }
{
    if partners.len() != heard.log.len() / ENTRY_LEN
        || owners.len() != heard.records.len() / RECORD_LEN
    {
        return 0;
    }
    pair_fitting(heard, partners, owners)
}

// The pairs, the records unheard and the entries unsent.
#[derive(Clone, Copy)]
pub struct Counts {
    pub pairs: usize,
    pub unheard: usize,
    pub unsent: usize,
}

// Each entry's record is written to `partners` and each record's entry to `owners`, by index, 2^64 - 1 for none. A refusal writes nothing.
// The parameters are those of the C interface.
pub fn compare_log(
    log: &[u8],
    records: &[u8],
    tolerance: u64,
    partners: &mut [u64],
    owners: &mut [u64],
) -> Result<Counts, Refusal>
    ensures { record { answer = result; partners = partners.new; owners = owners.new } ≡ compared_of log.now records.now tolerance partners.old owners.old }
{
    check(log, records, partners.len(), owners.len())?;
    let heard = Heard {
        log,
        records,
        tolerance,
    };
    let pairs = pair_up(heard, partners, owners);
    Ok(Counts {
        pairs,
        unheard: records.len() / RECORD_LEN - pairs,
        unsent: log.len() / ENTRY_LEN - pairs,
    })
}
