// Samples for other tools: a tape on standard input, its samples on standard output as interleaved little-endian f32 (cf32), its records, 66 bytes each, in the file that the first argument names.
// Samples are written as they come, records once the run is done. Each second of signal, how it ended, and a write that fails are reported on standard error.
#![tactic(auto)]

use constants::RECORD_LEN;
use std::env::{Env, FillError};
use std::fs::{File, Files};
use std::io::{Error, Stdout, Write};
use std::os::fd::{AsFd, AsRawFd};
use tape_feed::Outcome;
use tape_sections::{MAX_RECORDS_LEN, STDERR_FILENO};

// The system's errors: of a number that is not open, of an argument that is not there or a file that cannot do what is asked, of a name that is too long, and of bytes that are not text.
const EBADF: i32 = 9;

const EINVAL: i32 = 22;

const ENAMETOOLONG: i32 = 36;

const EILSEQ: i32 = 84;

// A line on standard error: a word, a number, and the samples written.
fn report(word: &[u8], number: u64, samples: u64) {
    io::write_all(STDERR_FILENO, word);
    io::print_decimal(STDERR_FILENO, number);
    io::write_all(STDERR_FILENO, b", samples ");
    io::print_decimal(STDERR_FILENO, samples);
    io::write_all(STDERR_FILENO, b"\n");
}

// What closing the file would say: std closes it without an answer, so that its bytes have reached it is asked before. A pipe or a device has no answer to that.
fn stored(file: &File) -> Result<(), Error> {
    match file.sync_data() {
        Ok(()) => Ok(()),
        Err(e) if e.raw_os_error() == Some(EINVAL) => Ok(()),
        Err(e) => Err(e),
    }
}

// The records into their file; whether it takes them all. A file that does not is left empty.
fn put_records(rt: &(impl Eprint + Alloc), mut file: File, records: &[u8]) -> bool {
    if let Err(e) = file.write_all(records) {
        tape_run::fail(rt, "cf32: the file for the records: write failed", &e);
        let _ = file.set_len(0);
        return false;
    }
    if let Err(e) = stored(&file) {
        tape_run::fail(rt, "cf32: the file for the records: close failed", &e);
        return false;
    }
    true
}

// The records of a run that is done, and how it ended.
fn finish(rt: &(impl Eprint + Alloc), file: File, records: &[u8], samples: u64) {
    if put_records(rt, file, records) {
        report(b"records ", (records.len() / RECORD_LEN) as u64, samples);
    }
}

// The samples, the records, and how it ended.
fn convert(rt: &(impl Eprint + Alloc), stdout: Stdout, file: File) {
    let mut records = [0u8; MAX_RECORDS_LEN];
    match tape_run::run_tape(&mut records, Some(stdout)) {
        Outcome::Done(count, samples) => finish(rt, file, &records[..RECORD_LEN * count], samples),
        Outcome::Refused(q, samples) => report(b"refused ", q.number(), samples),
        Outcome::Untaken(e) => tape_run::fail(rt, "cf32: standard output: write failed", &e),
    }
}

// Why standard output is not open, where it is not: a number that is not open cannot be copied.
fn why_closed(stdout: Stdout) -> Option<Error> {
    match stdout.as_fd().try_clone_to_owned() {
        Err(e) if e.raw_os_error() == Some(EBADF) => Some(e),
        _ => None,
    }
}

// Takes the number of standard input or standard error where that is closed, for as long as what is answered lives, so that no file gets it: what is meant for standard error would be written there.
fn hold_number(rt: &impl Files<File = File>) -> Option<File> {
    let file = File::open(rt, "/dev/null").ok()?;
    if file.as_raw_fd() <= STDERR_FILENO {
        Some(file)
    } else {
        None
    }
}

// The name that the first argument gives.
fn name<'a>(rt: &impl Env, bytes: &'a mut [u8]) -> Result<&'a str, Error> {
    let length = match rt.arg(1, bytes) {
        Ok(n) => n,
        Err(FillError::NotPresent) => return Err(Error::from_raw_os_error(EINVAL)),
        Err(FillError::TooLong) => return Err(Error::from_raw_os_error(ENAMETOOLONG)),
    };
    match std::str::from_utf8(&bytes[..length]) {
        Ok(text) => Ok(text),
        Err(_) => Err(Error::from_raw_os_error(EILSEQ)),
    }
}

// The file for the records, emptied; none where it cannot be made, which is reported.
fn records_file(rt: &(impl Env + Files<File = File> + Eprint + Alloc)) -> Option<File> {
    let mut bytes = io::buffer();
    let path = match name(rt, &mut bytes) {
        Ok(path) => path,
        Err(e) => {
            tape_run::fail(rt, "cf32: the file for the records", &e);
            return None;
        }
    };
    match File::create(rt, path) {
        Ok(file) => Some(file),
        Err(e) => {
            tape_run::fail(rt, path, &e);
            None
        }
    }
}

fn main(rt: HostRuntime) {
    let stdout = rt.stdout();
    if let Some(e) = why_closed(stdout) {
        tape_run::fail(&rt, "cf32: standard output", &e);
        return;
    }
    let _first = hold_number(&rt);
    let _second = hold_number(&rt);
    if let Some(file) = records_file(&rt) {
        convert(&rt, stdout, file);
    }
}
