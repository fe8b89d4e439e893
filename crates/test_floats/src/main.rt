// Replays answers of the Rust that are stored in the file stdin: a line is a letter for the function, its argument and its answer, both as 16 hexadecimal digits. Prints how many lines were read and how many answers differ.
#![tactic(auto)]

ghost use Rattle.std.specs.Prelude.{◌≡◌, ◌<◌, length};

// The numbers that the system gives standard input and standard output.
const STDIN_FILENO: i32 = 0;

const STDOUT_FILENO: i32 = 1;

// The value of a hexadecimal digit, in small letters; 0 for anything else.
fn digit(b: u8) -> u64
    ensures { result < 16 }
{
    match b {
        b'0'..=b'9' => u64::from(b - b'0'),
        b'a'..=b'f' => u64::from(b - b'a' + 10),
        _ => 0,
    }
}

// The number that hexadecimal digits give, modulo 2^64.
fn hexadecimal(digits: &[u8]) -> u64 {
    let mut n: u64 = 0;
    for b in digits {
        n = n % 0x1000_0000_0000_0000 * 16 + digit(*b);
    }
    n
}

// The stored answer is what the port answers: `x as f32` for n, `x.ceil() as i64` (as an `f64` again) for c, `x as u64` for u. Another letter is wrong.
fn agrees(letter: u8, x: f64, stored: u64) -> bool {
    match letter {
        b'n' => u64::from(floats::bits_of_f32(floats::narrow(x))) == stored,
        b'c' => {
            let n = floats::ceil_to_i64(x);
            floats::bits_of(std::num::nearest_i64_to_f64(n)) == stored
        }
        b'u' => floats::to_u64(x) == stored,
        _ => false,
    }
}

// The line's answer is the port's.
fn right(line: &[u8]) -> bool
    requires { length line.now ≡ 36 }
{
    let x = floats::f64_of(hexadecimal(&line[2..18]));
    agrees(line[0], x, hexadecimal(&line[19..35]))
}

fn say(lines: u64, wrong: u64) {
    io::print_decimal(STDOUT_FILENO, lines);
    io::write_all(STDOUT_FILENO, b" stored answers, ");
    io::print_decimal(STDOUT_FILENO, wrong);
    io::write_all(STDOUT_FILENO, b" differ\n");
}

fn main() {
    let mut line = [0u8; 36];
    let mut wrong: u64 = 0;
    for lines in 0..100000 {
        if io::read_full(STDIN_FILENO, &mut line) < 36 {
            say(lines, wrong);
            return;
        }
        if !right(&line) {
            wrong += 1;
        }
    }
    say(100000, wrong);
}
