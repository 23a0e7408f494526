//! The words of the command line, and what is printed about them. A word that is not UTF-8 is escaped and marked, since
//! `clap` takes only text.

ghost use Rattle.std.specs.Prelude.{◌≡◌, ◌++◌, ◌∷◌, [], ℕ, List, Option, Err, None, false, IfOk, IfSome};
ghost use Rattle.std.specs.Prelude.{map, option_map, slice_get, string_bytes, vec_items};
ghost use Rattle.clap.specs.Values.{kind_of};
ghost use Rattle.mp4_command.specs.Exit.{status_of};
ghost use Rattle.mp4_command.specs.Words.{bytes_escaped, word_text};
ghost use Rattle.mp4_io.specs.Ends.{is_read};
ghost use Rattle.mp4_show.specs.Escaped.{text_escaped};

use crate::escape::push_escaped_bytes;
use crate::mark::MARK;
use clap::Error;
use clap::error::ErrorKind;
use mp4_io::{Failure, is_closed_pipe};
use mp4_show::push_escaped;
use std::alloc::{AllocError, Global};
use std::env::{Env, FillError};

/// The exit status of a misuse, which `clap` uses too.
pub const MISUSE: u8 = 2;
/// The message for a name that is not UTF-8.
pub const NOT_UTF_8: &str = "this name is not UTF-8, and only names that are can be opened";
/// The number of bytes that a word has space for at first.
const CAPACITY: usize = 256;

/// A command line.
pub trait CommandLine {
    /// The bytes of all words, if they are known. The first word is the name of the program.
    ghost all: { Self → Option (List (List ℕ)) } = { λ _. None };

    /// Returns the bytes of word `number`, or `None` if there are fewer words.
    fn word(&self, alloc: Global, number: usize) -> Result<Option<Vec<u8>>, AllocError>
        ensures { IfSome (all self.now)
            (λ words. IfOk result (λ word. option_map vec_items word ≡ slice_get words number)) };
}

/// The command line of the program. No clause says which words it has.
impl CommandLine for HostRuntime {
    fn word(&self, alloc: Global, number: usize) -> Result<Option<Vec<u8>>, AllocError> {
        let mut capacity = CAPACITY;
        for _ in 0..usize::BITS {
            let mut bytes = vec![in alloc; 0; capacity]?;
            match self.arg(number, bytes.as_mut_slice()) {
                Ok(length) => {
                    bytes.truncate(length);
                    return Ok(Some(bytes));
                }
                Err(FillError::NotPresent) => return Ok(None),
                Err(FillError::TooLong) => capacity = capacity.saturating_add(capacity),
            }
        }
        Err(AllocError)
    }
}

/// Returns the escaped form of a word that is not UTF-8, with `MARK` at its end.
fn marked(alloc: Global, bytes: &[u8]) -> Result<String, AllocError>
    ensures { IfOk result (λ text. string_bytes text ≡ bytes_escaped bytes.now ++ (0 ∷ [])) }
{
    let mut text = String::new(alloc);
    push_escaped_bytes(bytes, &mut text)?;
    text.push(MARK)?;
    Ok(text)
}

/// Returns the text of a word. A word that is not UTF-8 is escaped, and ends with `MARK`.
fn text_of(alloc: Global, bytes: &[u8]) -> Result<String, AllocError>
    ensures { IfOk result (λ text. string_bytes text ≡ word_text bytes.now) }
{
    match std::str::from_utf8(bytes) {
        Ok(text) => String::from_str(alloc, text),
        Err(_) => marked(alloc, bytes),
    }
}

/// Returns the words of a command line as text.
pub fn words_of<C: CommandLine>(alloc: Global, line: &C) -> Result<Vec<String>, AllocError>
    ensures { IfSome (C.all line.now)
        (λ words. IfOk result (λ texts. map string_bytes texts.items ≡ map word_text words)) }
{
    let mut texts = Vec::new(alloc);
    for number in 0..usize::MAX {
        let Some(bytes) = line.word(alloc, number)? else {
            return Ok(texts);
        };
        texts.push(text_of(alloc, &bytes)?)?;
    }
    Err(AllocError)
}

/// Returns a name with its control characters escaped.
pub fn escaped(alloc: Global, name: &str) -> Result<String, AllocError>
    ensures { IfOk result (λ text. string_bytes text ≡ text_escaped name.now) }
{
    let mut text = String::new(alloc);
    push_escaped(name, &mut text)?;
    Ok(text)
}

/// Returns the text to print for an error of the command line. Its words are escaped and have no mark.
fn text_of_error(alloc: Global, error: &Error) -> Result<String, AllocError> {
    let printed = format!(in alloc; "{error}")?;
    let mut text = String::new(alloc);
    for part in printed.split(MARK) {
        for (number, line) in part.split('\n').enumerate() {
            if number > 0 {
                text.push('\n')?;
            }
            push_escaped(line, &mut text)?;
        }
    }
    Ok(text)
}

/// Returns the exit status for an error of this `kind`: 0 for the help and the version, else `MISUSE`.
fn status_of(kind: ErrorKind) -> u8
    ensures { result ≡ status_of kind }
{
    match kind {
        ErrorKind::DisplayHelp | ErrorKind::DisplayVersion => 0,
        _ => MISUSE,
    }
}

/// Prints the message of a command line that names no file: a misuse, the help or the version. Returns the exit status.
pub fn print_error(rt: &HostRuntime, error: &Error) -> Result<u8, Failure>
    ensures status { IfOk result (λ status. status ≡ status_of (kind_of error.now)) }
    ensures memory { kind_of error.now ≡ ErrorKind.OutOfMemory → result ≡ Err Failure.Memory }
    ensures not_read { is_read result ≡ false }
{
    if error.kind() == ErrorKind::OutOfMemory {
        return Err(Failure::Memory);
    }
    let text = text_of_error(rt.alloc(), error)?;
    let printed = if error.use_stderr() {
        eprint!(rt; "{text}")
    } else {
        print!(rt; "{text}")
    };
    match printed {
        Err(error) if !is_closed_pipe(&error) => Err(Failure::Write),
        _ => Ok(status_of(error.kind())),
    }
}
