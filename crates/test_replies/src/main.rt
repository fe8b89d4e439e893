// Replays the vectors of parity, making and classing: a line for each record of standard input. What it writes is held to the Rust's answers in the file stdout; `harness vectors` (differential/) makes both.
#![tactic(auto)]

use message::{Class, Picks, Reply, ReplyKind};
use test_exports::replies::kind_numbered;

// The numbers that the system gives standard input and standard output.
const STDIN_FILENO: i32 = 0;

const STDOUT_FILENO: i32 = 1;

// One step of the long division by 0xFFF409, x^24 implied.
fn with_bit(r: u32) -> u32 {
    let twice = r % 0x1000000 * 2;
    if twice >= 0x1000000 {
        (twice - 0x1000000) ^ 0xfff409
    } else {
        twice
    }
}

fn with_byte(r: u32, b: u8) -> u32 {
    let high = with_bit(with_bit(with_bit(with_bit(r ^ (u32::from(b) * 65536)))));
    with_bit(with_bit(with_bit(with_bit(high))))
}

// A second routine for parity, bit by bit.
fn parity_by_bits(bytes: &[u8]) -> u32 {
    let mut r: u32 = 0;
    for b in bytes {
        r = with_byte(r, *b);
    }
    r
}

fn digit(n: u8) -> u8 {
    match n % 16 {
        d @ 0..=9 => b'0' + d,
        d => b'a' - 10 + d,
    }
}

fn print_byte(b: u8) {
    let text = [digit(b / 16), digit(b % 16)];
    io::write_all(STDOUT_FILENO, &text);
}

fn print_parity(p: u32) {
    io::write_all(STDOUT_FILENO, b" ");
    print_byte((p / 65536 % 256) as u8);
    print_byte((p / 256 % 256) as u8);
    print_byte((p % 256) as u8);
}

fn print_bytes(b: [u8; 14]) {
    for x in &b {
        print_byte(*x);
    }
}

// The parity of the first n bytes, by both routines.
fn print_parities(s: &[u8], n: usize) {
    if n <= s.len() {
        print_parity(mode_s::parity(&s[..n]));
        print_parity(parity_by_bits(&s[..n]));
    }
}

fn parity_line(r: [u8; 22]) {
    let n = usize::from(r[15]);
    io::write_all(STDOUT_FILENO, b"parity");
    print_parities(&r, n);
    io::write_all(STDOUT_FILENO, b"\n");
}

fn print_class(c: Option<Class>) {
    match c {
        Some(Class::OfType(m)) => {
            io::print_decimal(STDOUT_FILENO, u64::from(message::type_number(m)));
        }
        Some(Class::TisB) => {
            io::write_all(STDOUT_FILENO, b"7");
        }
        None => {
            io::write_all(STDOUT_FILENO, b"none");
        }
    }
    io::write_all(STDOUT_FILENO, b"\n");
}

fn print_kind(k: ReplyKind) {
    let text = match k {
        ReplyKind::Short => b"0 ",
        ReplyKind::Long => b"1 ",
        ReplyKind::ModeAc => b"2 ",
    };
    io::write_all(STDOUT_FILENO, text);
}

fn message_of(r: [u8; 22]) -> [u8; 14] {
    let mut bytes = [0; 14];
    bytes.copy_from_slice(&r[..14]);
    bytes
}

fn print_reply(r: Reply) {
    print_kind(r.kind);
    print_bytes(r.bytes);
    io::write_all(STDOUT_FILENO, b" class ");
    print_class(message::from_message(r));
}

fn print_made(m: Result<Reply, u64>) {
    match m {
        Ok(reply) => print_reply(reply),
        Err(field) => {
            io::write_all(STDOUT_FILENO, b"refused ");
            io::print_decimal(STDOUT_FILENO, field);
            io::write_all(STDOUT_FILENO, b"\n");
        }
    }
}

fn make_line(r: [u8; 22]) {
    let p = Picks {
        format: r[16],
        capability: r[17],
        overlay: r[18],
        bytes: message_of(r),
        data: u16::from_le_bytes([r[19], r[20]]),
        spi: r[21],
    };
    io::write_all(STDOUT_FILENO, b"make ");
    io::print_decimal(STDOUT_FILENO, u64::from(r[15]));
    io::write_all(STDOUT_FILENO, b" ");
    if let Some(t) = message::message_type(r[15]) {
        print_made(message::make(t, p));
    }
}

fn class_line(r: [u8; 22]) {
    let reply = Reply {
        kind: kind_numbered(r[15]),
        bytes: message_of(r),
    };
    io::write_all(STDOUT_FILENO, b"class ");
    io::print_decimal(STDOUT_FILENO, u64::from(r[15]));
    io::write_all(STDOUT_FILENO, b" ");
    print_class(message::from_message(reply));
}

fn line(r: [u8; 22]) {
    match r[14] {
        0 => parity_line(r),
        1 => make_line(r),
        _ => class_line(r),
    }
}

// One record, if there is one more.
fn replay() -> bool {
    let mut r = [0u8; 22];
    let n = io::read_full(STDIN_FILENO, &mut r);
    if n < 22 {
        return false;
    }
    line(r);
    true
}

// A proved loop has to end: the records are counted, up to more than there are.
fn main() {
    for _ in 0..100_000 {
        if !replay() {
            return;
        }
    }
}
