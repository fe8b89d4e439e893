// The record on paper (SPECIFICATION 11.5 and 11.6): a line of 72 bytes and a line feed, pages of 60 lines, and a line read back. Each public function is equal to a definition of specs/ on every input.
#![tactic(auto)]

ghost use Rattle.std.specs.Prelude.{◌≡◌, true, [], ◌∷◌, ◌++◌, ◌+◌, ◌*◌, ◌-◌, ◌^◌, ◌≤◌, ◌<◌, length, replicate, None, ◌/◌};
ghost use Rattle.le_read.specs.LeBytes.{inside, overwritten};
ghost use Rattle.record_check.specs.Accepted.{accepted, first_sample, type_of, count_of};
ghost use Rattle.page.specs.Line.{number_field, numbers, page_line, with_feed, line_fits, line_at, blank_at};
ghost use Rattle.page.specs.TensModel.{tens_digit, tens};
ghost use Rattle.record_check.specs.FirstFault.{first_fault};
ghost use Rattle.page.specs.Pages.{page_count, record_lines, blank_lines, pages_text, pages_answer, pages_left};
ghost use Rattle.page.specs.Fields.{digit_value, hex_value, read_number, place, shown_byte, shown_message, is_type, shown_fields, fields_of};

use constants::RECORD_LEN;
use refusals::Refusal;

// Bytes of a line, and of a line with its line feed.
pub const TEXT_LEN: usize = 72;

pub const LINE_LEN: usize = 73;

// Columns of the first sample and of the count, and of all three numbers with the space behind each.
const FIRST_WIDTH: usize = 16;

const COUNT_WIDTH: usize = 4;

const NUMBERS_WIDTH: usize = 24;

const BLANK: u8 = 32;

const LINE_FEED: u8 = 10;

// The last digit of a number, blank for 0.
#[tactic(auto, unfolding(crate::specs::TensModel::tens_digit))]
fn tens_digit(n: u64) -> u8
    ensures { result ≡ tens_digit n }
{
    if n == 0 { BLANK } else { 48 + (n % 10) as u8 }
}

// A number in its columns, blanks in front of it, and for 0 blanks alone; from the last column to the first. Offsets here and below, not subslices: a clause then tells of the whole buffer, and parts join by one law.
fn put_tens(n: u64, width: usize, out: &mut [u8], at: usize)
    requires { at + width ≤ length out.old }
    ensures { out.new ≡ overwritten out.old at (tens width n) }
{
    let mut rest = n;
    for i in 0..width {
        out[at + width - 1 - i] = tens_digit(rest);
        rest /= 10;
    }
}

// A number right-aligned in its columns, and a space.
fn put_number(n: u64, upper: usize, out: &mut [u8], at: usize)
    requires { (n < 10 ^ (upper + 1)) × (at + upper + 2 ≤ length out.old) }
    ensures { out.new ≡ overwritten out.old at (number_field (upper + 1) n) }
{
    put_tens(n / 10, upper, out, at);
    out[at + upper] = 48 + (n % 10) as u8;
    out[at + upper + 1] = BLANK;
}

// First sample, type and count of an accepted record.
fn put_numbers(rec: &[u8], out: &mut [u8], at: usize)
    requires { (accepted rec.now ≡ true) × (at + 24 ≤ length out.old) }
    ensures { out.new ≡ overwritten out.old at (numbers (first_sample rec.now) (type_of rec.now) (count_of rec.now)) }
{
    let first = le_read::number::<u64>(rec, 40);
    let kind = le_read::byte_at(rec, 48);
    let count = le_read::number::<u16>(rec, 49);
    put_number(first, FIRST_WIDTH - 1, out, at);
    put_number(u64::from(kind), 0, out, at + 17);
    put_number(u64::from(count), COUNT_WIDTH - 1, out, at + 19);
}

// Blanks and a line feed.
fn put_blanks(n: usize, out: &mut [u8], at: usize)
    requires { at + n < length out.old }
    ensures { out.new ≡ overwritten out.old at (replicate n 32 ++ (10 ∷ [])) }
{
    out[at..at + n].fill(BLANK);
    out[at + n] = LINE_FEED;
}

// The blanks behind a message that ends at `end`, where a line feed stands for one more.
fn blanks_behind(at: usize, end: usize) -> usize
    requires { (end ≤ at + 73) × (at + 73 < 2 ^ 64) }
    ensures { result ≡ at + 73 - end }
{
    at + LINE_LEN - end
}

// The line of an accepted record, and its line feed. The message is put as the tape program prints it; blanks go over its line feed.
fn put_line(rec: &[u8], out: &mut [u8], at: usize)
    requires { (accepted rec.now ≡ true) × (at + 73 ≤ length out.old) }
    ensures { out.new ≡ overwritten out.old at (with_feed (page_line rec.now)) }
{
    put_numbers(rec, out, at);
    let end = tape_text::message_at(rec, out, at + NUMBERS_WIDTH);
    let blanks = blanks_behind(at, end);
    put_blanks(blanks, out, end - 1);
}

// The line of an accepted record and its line feed, put at an offset. False where the record is not accepted or 73 bytes run past the end: then nothing is put.
#[tactic(auto, unfolding(crate::specs::Line::line_fits, crate::specs::Line::line_at))]
fn put(rec: &[u8], out: &mut [u8], at: usize) -> bool
    ensures { (result ≡ line_fits rec.now out.old at) × (out.new ≡ line_at rec.now out.old at) }
{
    if !record_check::accepts(rec) || !le_read::holds(out.len(), at, LINE_LEN) {
        return false;
    }
    put_line(rec, out, at);
    true
}

// A line of blanks and its line feed, put at an offset. False where they run past the end: then nothing is put.
#[tactic(auto, unfolding(crate::specs::Line::blank_at, crate::specs::Line::with_feed, crate::specs::Line::blank_line))]
fn put_blank(out: &mut [u8], at: usize) -> bool
    ensures { (result ≡ inside 73 out.old at) × (out.new ≡ blank_at out.old at) }
{
    if !le_read::holds(out.len(), at, LINE_LEN) {
        return false;
    }
    put_blanks(TEXT_LEN, out, at);
    true
}

// Lines of a page, and its bytes.
const PAGE_LINES: usize = 60;

pub const PAGE_LEN: usize = 4380;

// The pages that records take, the last one padded.
fn page_count(records: usize) -> usize
    ensures { result ≡ page_count records }
{
    records.div_ceil(PAGE_LINES)
}

// What is answered for records and room in bytes. The room is divided, so that no product can overflow.
#[tactic(auto, unfolding(crate::specs::Pages::pages_answer, crate::specs::Pages::by_fault))]
fn judge(records: &[u8], room: usize) -> Result<u64, Refusal>
    ensures { result ≡ pages_answer records.now room }
{
    if records.len() % RECORD_LEN != 0 {
        return Err(Refusal::Length);
    }
    let pages = page_count(records.len() / RECORD_LEN);
    if room / PAGE_LEN < pages {
        return Err(Refusal::Length);
    }
    match record_check::first_fault(records) {
        Some(k) => Err(Refusal::Record(k)),
        None => Ok(pages as u64),
    }
}

// The lines of accepted records, from the buffer's start on.
fn put_lines(records: &[u8], out: &mut [u8])
    requires { (first_fault records.now ≡ None) × (73 * (length records.now / 66) ≤ length out.old) }
    ensures { out.new ≡ overwritten out.old 0 (record_lines (length records.now / 66) records.now) }
{
    for k in 0..records.len() / RECORD_LEN {
        put(&records[RECORD_LEN * k..], out, LINE_LEN * k);
    }
}

// Lines of blanks, put at an offset.
fn put_blank_lines(n: usize, out: &mut [u8], start: usize)
    requires { start + 73 * n ≤ length out.old }
    ensures { out.new ≡ overwritten out.old start (blank_lines n) }
{
    for k in 0..n {
        put_blank(out, start + LINE_LEN * k);
    }
}

// The pages of accepted records.
fn put_pages(records: &[u8], out: &mut [u8])
    requires { (first_fault records.now ≡ None) × (4380 * page_count (length records.now / 66) ≤ length out.old) }
    ensures { out.new ≡ overwritten out.old 0 (pages_text records.now) }
{
    let n = records.len() / RECORD_LEN;
    let lines = PAGE_LINES * page_count(n);
    put_lines(records, out);
    put_blank_lines(lines - n, out, LINE_LEN * n);
}

// Records on paper: the pages written, or a refusal that leaves all of out as it was. Bytes behind the pages stay.
#[tactic(auto, unfolding(crate::specs::Pages::pages_left), using(crate::proofs::Judged::may_write))]
pub fn fill(records: &[u8], out: &mut [u8]) -> Result<u64, Refusal>
    ensures { (result ≡ pages_answer records.now (length out.old)) × (out.new ≡ pages_left records.now out.old) }
{
    let answer = judge(records, out.len());
    if answer.is_ok() {
        put_pages(records, out);
    }
    answer
}

// The columns where type, count and message begin.
const TYPE_COLUMN: usize = 17;

const COUNT_COLUMN: usize = 19;

const MESSAGE_COLUMN: usize = 24;

// The type of Mode A/C.
const MODE_AC: u8 = 6;

// What a record's line shows.
// The message stands in an array with its size beside it: fixed memory, as a record has it.
#[derive(Clone, Copy)]
pub struct LineFields {
    pub first: u64,
    // The number of the type, as a record and the line have it and as C is given it.
    pub kind: u8,
    pub count: u16,
    pub size: u8,
    pub message: [u8; 14],
}

// A decimal digit; any other byte, a blank too, is 0.
#[tactic(auto, unfolding(crate::specs::Fields::digit_value))]
fn digit(c: u8) -> u8
    ensures { (result ≡ digit_value c) × (result < 10) }
{
    match c {
        b'0'..=b'9' => c - b'0',
        _ => 0,
    }
}

// A hexadecimal digit; any other byte is 0.
#[tactic(auto, unfolding(crate::specs::Fields::hex_value))]
fn hex_value(c: u8) -> u8
    ensures { (result ≡ hex_value c) × (result < 16) }
{
    match c {
        b'a'..=b'f' => c - b'a' + 10,
        _ => digit(c),
    }
}

// The number that its columns show.
fn read_number(columns: &[u8]) -> u64
    requires { length columns.now ≤ 16 }
    ensures { (result ≡ read_number columns.now) × (result < 10 ^ length columns.now) }
{
    let mut v: u64 = 0;
    for c in columns {
        v = v * 10 + u64::from(digit(*c));
    }
    v
}

// The byte that stands k-th in the message's columns.
#[tactic(auto, unfolding(crate::specs::Fields::shown_byte))]
fn shown_byte(line: &[u8], k: usize) -> u8
    requires { 24 + 2 * k + 2 ≤ length line.now }
    ensures { result ≡ shown_byte line.now k }
{
    let high = line[MESSAGE_COLUMN + 2 * k];
    let low = line[MESSAGE_COLUMN + 2 * k + 1];
    16 * hex_value(high) + hex_value(low)
}

// Where a record's k-th byte stands in the line: Mode A/C is shown high byte first, and kept low byte first.
#[tactic(auto, unfolding(crate::specs::Fields::place))]
fn place_of(kind: u8, k: usize) -> usize
    requires { k < 14 }
    ensures { (result ≡ place kind k) × (result < 14) }
{
    if kind == MODE_AC {
        1usize.saturating_sub(k)
    } else {
        k
    }
}

// The message of a type, of n bytes, as a record keeps it; zeros behind it.
fn read_message(line: &[u8], kind: u8, n: usize) -> [u8; 14]
    requires { (52 ≤ length line.now) × (n ≤ 14) }
    ensures { result ≡ shown_message kind line.now n }
{
    let mut message = [0u8; 14];
    for k in 0..n {
        message[k] = shown_byte(line, place_of(kind, k));
    }
    message
}

// Whether a column shows a type.
#[tactic(auto, unfolding(crate::specs::Fields::is_type))]
fn is_type(c: u8) -> bool
    ensures { result ≡ is_type c }
{
    matches!(c, b'0'..=b'6')
}

// The fields that a line of 72 bytes shows.
fn read_fields(line: &[u8]) -> LineFields
    requires { length line.now ≡ 72 }
    ensures { result ≡ shown_fields line.now }
{
    let kind = digit(line[TYPE_COLUMN]);
    let size = record_check::type_length(kind);
    let first = read_number(&line[..FIRST_WIDTH]);
    let count = read_number(&line[COUNT_COLUMN..COUNT_COLUMN + COUNT_WIDTH]);
    let message = read_message(line, kind, usize::from(size));
    LineFields {
        first,
        kind,
        count: count as u16,
        size,
        message,
    }
}

// The fields of a record's line, without its line feed; none of bytes of another number, or without a type in its column.
#[tactic(auto, unfolding(crate::specs::Fields::fields_of))]
pub fn read(line: &[u8]) -> Option<LineFields>
    ensures { result ≡ fields_of line.now }
{
    if line.len() != TEXT_LEN || !is_type(line[TYPE_COLUMN]) {
        return None;
    }
    Some(read_fields(line))
}
