// Standard input, output and error for the programs, and the files that their words name. No contract can say which bytes the system takes
// or brings: `lines` settles what is handed to it.
#![tactic(auto)]

ghost use Rattle.std.specs.Prelude.{◌≡◌, ◌≤◌, length, IfOk};
ghost use Rattle.console.specs.declared.NoInput.TheVariants.{Failed};

use std::env::{Env, FillError};
use std::fs::File;
use std::io::{Print, Read, Write};
use std::{io, str};

// The system's numbers of the two ways in which a word can't be had: there is none, and it is too long.
const NO_WORD: i32 = 22;

const LONG_WORD: i32 = 36;

// Why an input brought no bytes: it failed, and why, which was said on standard error; or the command's words were answered with how the
// program is used.
#[derive(Clone, Copy)]
pub enum NoInput {
    Failed(io::Error),
    Told,
}

impl From<io::Error> for NoInput {
    ghost from_gives = { λ error n. n ≡ Failed error };

    fn from(error: io::Error) -> NoInput {
        NoInput::Failed(error)
    }
}

// Reads until the input ends or the buffer is full, whatever pieces come.
// Stays: a loop over `read`, since std's `read_exact` doesn't tell how many bytes came, and its `read_to_end` fills a Vec (no heap).
fn fill<'a, R: Read>(source: &mut R, buffer: &'a mut [u8]) -> io::Result<&'a [u8]>
    ensures { IfOk result (λ s. length s.now ≤ length buffer.old) }
{
    let mut at = 0;
    while at < buffer.len() {
        match source.read(&mut buffer[at..])? {
            0 => break,
            n => at += n,
        }
    }
    Ok(&buffer[..at])
}

// Reads the input to its end, so that who sends it can send it all: its first bytes into the buffer, and what is left is dropped.
pub fn read_all<'a, R: Read>(source: &mut R, buffer: &'a mut [u8]) -> io::Result<&'a [u8]>
    ensures { IfOk result (λ s. length s.now ≤ length buffer.old) }
{
    let input = fill(source, buffer);
    let _ = io::copy(source, &mut io::sink());
    input
}

// The system's words for an error, of the text of one: up to the error's number, or to the bytes that are 0.
fn reason(text: &[u8]) -> &[u8] {
    let end = text
        .array_windows()
        .position(|w| w[0] == 0 || w == b" (os error ");
    match end {
        Some(n) => &text[..n],
        None => text,
    }
}

// Says on standard error what failed, and why.
pub fn fail(rt: &HostRuntime, what: &[u8], error: io::Error) {
    let mut text = [0u8; 320];
    let mut space: &mut [u8] = &mut text;
    let _ = write!(space, "{error}");
    complain(rt, what);
    complain(rt, b": ");
    complain(rt, reason(&text));
    complain(rt, b"\n");
}

// Opens the file of a name, which has to be UTF-8.
fn open(rt: &HostRuntime, name: &[u8]) -> io::Result<File> {
    match str::from_utf8(name) {
        Ok(path) => File::open(rt, path),
        Err(_) => Err(io::ErrorKind::InvalidFilename.into()),
    }
}

// Reads the file of a name until it ends or the buffer is full.
fn read_named<'a>(rt: &HostRuntime, name: &[u8], buffer: &'a mut [u8]) -> io::Result<&'a [u8]>
    ensures { IfOk result (λ s. length s.now ≤ length buffer.old) }
{
    let mut file = open(rt, name)?;
    fill(&mut file, buffer)
}

// How many words the command has, its name among them.
pub fn word_count(rt: &HostRuntime) -> usize {
    (0..usize::MAX)
        .find(|n| matches!(rt.arg(*n, &mut []), Err(FillError::NotPresent)))
        .unwrap_or(usize::MAX)
}

// The word of the command with that number, of which its name has 0, in the buffer.
pub fn word<'a>(rt: &HostRuntime, number: usize, buffer: &'a mut [u8]) -> io::Result<&'a [u8]>
    ensures { IfOk result (λ s. length s.now ≤ length buffer.old) }
{
    match rt.arg(number, buffer) {
        Ok(n) => Ok(&buffer[..n]),
        Err(FillError::NotPresent) => Err(io::Error::from_raw_os_error(NO_WORD)),
        Err(FillError::TooLong) => Err(io::Error::from_raw_os_error(LONG_WORD)),
    }
}

// Reads the file that a word of the command names, likewise. What goes wrong is said on standard error.
pub fn read_file<'a>(rt: &HostRuntime, number: usize, buffer: &'a mut [u8]) -> io::Result<&'a [u8]>
    ensures { IfOk result (λ s. length s.now ≤ length buffer.old) }
{
    let mut space = [0u8; 4096];
    let name = word(rt, number, &mut space).inspect_err(|error| fail(
        rt,
        b"the name of the file",
        *error,
    ))?;
    read_named(rt, name, buffer).inspect_err(|error| fail(rt, name, *error))
}

// Whether the command has one word, and that asks how the program is used; then that is told.
pub fn has_helped(rt: &HostRuntime, usage: &[u8]) -> bool {
    let mut space = [0u8; 4096];
    let asked = word_count(rt) == 2 && matches!(word(rt, 1, &mut space), Ok(b"--help"));
    if asked {
        write(rt, usage);
    }
    asked
}

// Reads standard input to its end, or the file that the command's one word names. More words are answered with how the program is used.
pub fn read_input<'a>(
    rt: &HostRuntime,
    usage: &[u8],
    buffer: &'a mut [u8],
) -> Result<&'a [u8], NoInput>
    ensures { IfOk result (λ s. length s.now ≤ length buffer.old) }
{
    if has_helped(rt, usage) {
        return Err(NoInput::Told);
    }
    match word_count(rt) {
        0 | 1 => {
            let input = read_all(&mut rt.stdin(), buffer);
            Ok(input.inspect_err(|error| fail(rt, b"standard input", *error))?)
        }
        2 => Ok(read_file(rt, 1, buffer)?),
        _ => {
            complain(rt, usage);
            Err(NoInput::Told)
        }
    }
}

// Hands bytes to standard output, and says whether it took them; if not, that is said on standard error too.
pub fn write(rt: &HostRuntime, text: &[u8]) -> bool {
    rt.write_all(text)
        .inspect_err(|error| fail(rt, b"standard output", *error))
        .is_ok()
}

// Hands bytes to standard error.
pub fn complain(rt: &HostRuntime, text: &[u8]) {
    let _ = Print::write_all(&rt.stderr(), text);
}
