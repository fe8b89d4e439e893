// The tape program: a tape on standard input; a header, a line for each record and the samples written on standard output, or `refused` and a number.
// What it prints is worked out by tape_run and tape_text; here it is written, and a write that fails is reported on standard error.
#![tactic(auto)]

use constants::RECORD_LEN;
use refusals::Refusal;
use tape_feed::Outcome;
use tape_sections::MAX_RECORDS_LEN;
use tape_text::TEXT_LEN;

const NOT_TAKEN: &str = "tape: standard output: write failed";

fn print(rt: &(impl Print + Eprint + Alloc), text: &[u8]) {
    if let Err(e) = rt.write_all(text) {
        tape_run::fail(rt, NOT_TAKEN, &e);
    }
}

fn print_refused(rt: &(impl Print + Eprint + Alloc), q: Refusal) {
    let mut text = [0u8; TEXT_LEN];
    let n = tape_text::refused_text(q.number(), &mut text);
    print(rt, &text[..n]);
}

fn print_run(rt: &(impl Print + Eprint + Alloc), records: &[u8], samples: u64) {
    let mut text = [0u8; TEXT_LEN];
    let n = tape_text::run_text(records, samples, &mut text);
    print(rt, &text[..n]);
}

fn main(rt: HostRuntime) {
    let mut records = [0u8; MAX_RECORDS_LEN];
    match tape_run::run_tape(&mut records, None) {
        Outcome::Done(count, samples) => print_run(&rt, &records[..RECORD_LEN * count], samples),
        Outcome::Refused(q, _) => print_refused(&rt, q),
        Outcome::Untaken(e) => tape_run::fail(&rt, NOT_TAKEN, &e),
    }
}
