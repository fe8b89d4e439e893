// The text that the tape program prints, put into a buffer. Each public function is equal to a definition of specs/ on every input.
#![tactic(auto)]

ghost use Rattle.std.specs.Prelude.{◌≡◌, ◌+◌, ◌*◌, ◌/◌, ◌≤◌, ◌<◌, length, ◌∷◌, []};
ghost use Rattle.io.specs.Counts.{IsPrefixLen};
ghost use Rattle.le_read.specs.LeBytes.{overwritten};
ghost use Rattle.tape_text.specs.Text.{number, hex_digit, hex, hex_line, message_of, line_of, lines_of, run_text, refused_text, Put, message_at, message_end};

use constants::RECORD_LEN;

// Room for the text of a tape.
pub const TEXT_LEN: usize = 40960;

// Lines of text, one for each draw at most.
const MAX_LINES: usize = 400;

// Bytes of the longest message in hexadecimal and its line's end.
const MESSAGE_LEN: usize = 29;

#[tactic(auto, unfolding(crate::specs::Text::hex_digit))]
fn hex_digit(d: u8) -> u8
    requires { d < 16 }
    ensures { result ≡ hex_digit d }
{
    if d < 10 { 48 + d } else { 87 + d }
}

// Bytes put at an offset; where they end. Offsets here and below, not subslices: a clause then tells of the whole buffer, and parts join by one law.
fn put_bytes(from: &[u8], out: &mut [u8], at: usize) -> usize
    requires { at + length from.now ≤ length out.old }
    ensures { Put from.now out.old at out.new result }
{
    let end = at + from.len();
    out[at..end].copy_from_slice(from);
    end
}

// A number in decimal and a byte after it, put at an offset; where they end.
fn put_number(n: u64, after: u8, out: &mut [u8], at: usize) -> usize
    requires { at + 21 ≤ length out.old }
    ensures { Put (number n after) out.old at out.new result × (result ≤ at + 21) }
{
    let mut digits = [0u8; 20];
    let k = io::decimal(n, &mut digits);
    let end = put_bytes(&digits[..k], out, at);
    out[end] = after;
    end + 1
}

// A byte in hexadecimal, put at an offset.
fn put_hex_byte(b: u8, out: &mut [u8], at: usize)
    requires { at + 2 ≤ length out.old }
    ensures { out.new ≡ overwritten out.old at (hex (b ∷ [])) }
{
    out[at] = hex_digit(b / 16);
    out[at + 1] = hex_digit(b % 16);
}

// Bytes in hexadecimal, put at an offset.
fn put_hex(bytes: &[u8], out: &mut [u8], at: usize)
    requires { at + 2 * length bytes.now ≤ length out.old }
    ensures { out.new ≡ overwritten out.old at (hex bytes.now) }
{
    for (k, b) in bytes.iter().enumerate() {
        put_hex_byte(*b, out, at + 2 * k);
    }
}

// The same with the line's end; where it ends.
fn put_hex_line(bytes: &[u8], out: &mut [u8], at: usize) -> usize
    requires { at + 2 * length bytes.now < length out.old }
    ensures { Put (hex_line bytes.now) out.old at out.new result }
{
    put_hex(bytes, out, at);
    let line_end = at + 2 * bytes.len();
    out[line_end] = 10;
    line_end + 1
}

// The message of a record and the line's end; Mode A/C as the four digits of its u16.
fn put_message(rec: &[u8], out: &mut [u8], at: usize) -> usize
    requires { (66 ≤ length rec.now) × (at + 29 ≤ length out.old) }
    ensures { Put (hex_line (message_of rec.now)) out.old at out.new result × (result ≤ at + 29) }
{
    if rec[48] == 6 {
        let data = [rec[53], rec[52]];
        return put_hex_line(&data, out, at);
    }
    let n = usize::from(rec[51]).min(14);
    put_hex_line(&rec[52..52 + n], out, at)
}

// The same on any input: nothing is put where the record is not whole, or 29 bytes from the offset run past the end.
#[tactic(auto, unfolding(crate::specs::Text::message_fits, crate::specs::Text::message_at, crate::specs::Text::message_end))]
pub fn message_at(rec: &[u8], out: &mut [u8], at: usize) -> usize
    ensures { (result ≡ message_end rec.now out.old at) × (out.new ≡ message_at rec.now out.old at) }
{
    if rec.len() < RECORD_LEN || !le_read::holds(out.len(), at, MESSAGE_LEN) {
        return at;
    }
    put_message(rec, out, at)
}

// The line of the record at the start of the bytes, put at an offset; where it ends.
fn put_line(rec: &[u8], out: &mut [u8], at: usize) -> usize
    requires { (66 ≤ length rec.now) × (at + 92 ≤ length out.old) }
    ensures { Put (line_of rec.now) out.old at out.new result × (result ≤ at + 92) }
{
    let a = put_number(le_read::number::<u64>(rec, 40), 32, out, at);
    let b = put_number(u64::from(rec[48]), 32, out, a);
    let c = put_number(u64::from(le_read::number::<u16>(rec, 49)), 32, out, b);
    put_message(rec, out, c)
}

// The lines of records, put at an offset; where they end.
fn put_lines(records: &[u8], out: &mut [u8], at: usize) -> usize
    requires { at + 92 * (length records.now / 66) ≤ length out.old }
    ensures { Put (lines_of (length records.now / 66) records.now) out.old at out.new result × (result ≤ at + 92 * (length records.now / 66)) }
{
    let mut end = at;
    // By index: with `chunks_exact`, which was tried, the proof has no count of the lines put.
    for k in 0..records.len() / RECORD_LEN {
        end = put_line(&records[RECORD_LEN * k..], out, end);
    }
    end
}

// What is printed of a run with its records, of which 400 have lines; its length.
pub fn run_text(records: &[u8], samples: u64, out: &mut [u8; TEXT_LEN]) -> usize
    ensures value { (result ≡ length (run_text records.now (length records.now / 66) samples)) × (out.new ≡ overwritten out.old 0 (run_text records.now (length records.now / 66) samples)) }
    ensures prefix_len { IsPrefixLen result out.new }
{
    let n = (records.len() / RECORD_LEN).min(MAX_LINES);
    let a = put_bytes(b"first type count message\n", out, 0);
    let b = put_lines(&records[..RECORD_LEN * n], out, a);
    let c = put_bytes(b"samples ", out, b);
    put_number(samples, 10, out, c)
}

// What is printed of a refusal with its number; its length.
// A number, and not a `Refusal`: the tape program prints the number.
pub fn refused_text(refusal: u64, out: &mut [u8; TEXT_LEN]) -> usize
    ensures value { (result ≡ length (refused_text refusal)) × (out.new ≡ overwritten out.old 0 (refused_text refusal)) }
    ensures prefix_len { IsPrefixLen result out.new }
{
    let a = put_bytes(b"refused ", out, 0);
    put_number(refusal, 10, out, a)
}
