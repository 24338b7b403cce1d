// Makes images and reads them back: `make VERSION PAYLOAD` writes the image of a payload, `read IMAGE` the payload that an image carries, with its padding, to
// standard output, one after another. A file of `-` is standard input. What is refused, or cannot be read or written, is named on standard error.
#![tactic(auto)]

ghost use Rattle.std.specs.Prelude.{◌≤◌, ◌+◌, ◌*◌, ◌≡◌, length, IfSome, SomeIff, IsTrue};
ghost use Rattle.images.specs.Version.{digit, number_in, fits};
ghost use Rattle.images.specs.Words.{words_of};

use program_files::{System, Unwritten};
use rules::{NotMade, NotRead};
use std::process::ExitCode;

// The buffer for an argument: the longest name of a file, and its end.
const NAME: usize = 4096;

// One byte more than an image can have, so that a file that is longer is seen to be.
const INPUT: usize = 16385;

// The longest image.
const OUTPUT: usize = 16384;

// A number with the digit behind it that a byte is, if it is one and the number has 64 bits.
#[tactic(auto, using(crate::proofs::Laws::fitting, crate::proofs::Laws::does_fit))]
fn with_digit(number: u64, byte: u8) -> Option<u64>
    ensures { SomeIff result (IsTrue (fits number byte)) (number * 10 + digit byte) }
{
    if byte < b'0' || b'9' < byte {
        return None;
    }
    let tens = number.checked_mul(10)?;
    tens.checked_add(u64::from(byte - b'0'))
}

// The number that a word's digits are, if it has no other byte and the number has 64 bits. `parse` would take a sign before it.
fn number_in(word: &[u8]) -> Option<u64>
    ensures { result ≡ number_in word.now }
{
    if word.is_empty() {
        return None;
    }
    let mut number = 0;
    for byte in word {
        number = with_digit(number, *byte)?;
    }
    Some(number)
}

// The file that an argument names, as far as the buffer holds it. What cannot be read is named on standard error.
fn file<'a, R: System>(
    rt: &R,
    argument: usize,
    name: &mut [u8],
    input: &'a mut [u8],
) -> Option<&'a [u8]>
    ensures { IfSome result (λ bytes. length bytes.now ≤ length input.old) }
{
    let mut opened = program_files::open_log(rt, argument, name)?;
    let have = program_files::fill(rt, &mut opened.log, input)
        .inspect_err(|broken| program_files::fail(rt, opened.name, &broken.reason))
        .ok()?;
    Some(&input[..have])
}

// Says why there is nothing to show.
fn refuse<R: System>(rt: &R, why: &[u8]) -> Result<(), Unwritten> {
    rt.say(why);
    Ok(())
}

// Shows the image of a payload, or says why there is none.
fn make<R: System>(
    rt: &R,
    version: u64,
    payload: &[u8],
    output: &mut [u8],
) -> Result<(), Unwritten> {
    match image_make::make(version, payload, output) {
        Ok(length) => program_files::show(rt, &output[..length]),
        Err(NotMade::VersionZero) => refuse(rt, b"version 0\n"),
        Err(NotMade::PayloadOver128Records) => refuse(rt, b"payload over 128 records\n"),
        Err(NotMade::OutputTooShort) => refuse(rt, b"output too short\n"),
    }
}

// Shows the payload that an image carries, or says why there is none.
fn read<R: System>(rt: &R, image: &[u8], output: &mut [u8]) -> Result<(), Unwritten> {
    match image_make::read_back(image, output) {
        Ok(length) => program_files::show(rt, &output[..length]),
        Err(NotRead::NotGoodImage) => refuse(rt, b"not a good image\n"),
        Err(NotRead::OutputTooShort) => refuse(rt, b"output too short\n"),
    }
}

// What the program is asked to do.
#[derive(Clone, Copy)]
enum Job {
    // `make VERSION PAYLOAD`
    Make,
    // `read IMAGE`
    Read,
}

impl Job {
    // How many arguments it has, its own name among them.
    fn words(self) -> usize
        ensures { result ≡ words_of self }
    {
        match self {
            Job::Make => 3,
            Job::Read => 2,
        }
    }
}

// The buffers: for an argument, for the file that it names, and for what is written.
#[derive(Drop)]
struct Desk {
    name: [u8; NAME],
    input: [u8; INPUT],
    output: [u8; OUTPUT],
}

impl Desk {
    // The job that an argument begins, if so many that are left have its words.
    fn job<R: System>(&mut self, rt: &R, first: usize, left: usize) -> Option<Job>
        ensures { IfSome result (λ job. words_of job ≤ left) }
    {
        let word = program_files::arg(rt, first, &mut self.name)?;
        if word == b"make".as_slice() && Job::Make.words() <= left {
            return Some(Job::Make);
        }
        if word == b"read".as_slice() && Job::Read.words() <= left {
            return Some(Job::Read);
        }
        None
    }

    // Does the job that an argument begins. A file that cannot be read was named.
    fn work<R: System>(&mut self, rt: &R, job: Job, first: usize) -> Result<(), Unwritten>
        requires { first + words_of job ≤ 18446744073709551615 }
    {
        match job {
            Job::Make => {
                let word = program_files::arg(rt, first + 1, &mut self.name);
                let Some(version) = word.and_then(number_in) else {
                    rt.say(b"VERSION is no number from 0 to 18446744073709551615\n");
                    return Ok(());
                };
                match file(rt, first + 2, &mut self.name, &mut self.input) {
                    Some(payload) => make(rt, version, payload, &mut self.output),
                    None => Ok(()),
                }
            }
            Job::Read => match file(rt, first + 1, &mut self.name, &mut self.input) {
                Some(image) => read(rt, image, &mut self.output),
                None => Ok(()),
            },
        }
    }
}

fn main(rt: HostRuntime) -> ExitCode {
    let mut desk = Desk {
        name: [0u8; NAME],
        input: [0u8; INPUT],
        output: [0u8; OUTPUT],
    };
    let count = program_files::arg_count(&rt);
    let mut first = 1;
    while first < count {
        let Some(job) = desk.job(&rt, first, count - first) else {
            rt.say(b"wants make VERSION PAYLOAD or read IMAGE\n");
            return ExitCode::SUCCESS;
        };
        if desk.work(&rt, job, first) == Err(Unwritten::Closed) {
            return ExitCode::from(Unwritten::Closed);
        }
        first += job.words();
    }
    ExitCode::SUCCESS
}
