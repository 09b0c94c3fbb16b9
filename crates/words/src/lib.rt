// R349: the words that a program is started with: which are known, and what they ask for. Beside them, how a program
// reads its input and writes what it prints.
#![tactic(auto)]

ghost use Rattle.std.specs.Prelude.{◌≡◌, ◌<◌, ◌≤◌, length, take, IfOk, OnOk, OnErr};
ghost use Rattle.std.specs.Io.KnownBytes.{Appends, Consumes, IsAtEnd};
ghost use Rattle.words.specs.Words.{with_known, with_word};
ghost use Rattle.words.specs.Written.{AppendsFront, ConsumesInto};

use std::env::FillError;
use std::io;
use std::io::{ErrorKind, Read, Write};
use std::rt::Env;

// What the known words so far asked for, as `rules::choose` takes it. Either may be asked for without the other, so
// neither flag tells of the other.
#[derive(Clone, Copy)]
pub struct Words {
    pub strict: bool,
    pub entries: bool,
}

// R349: no word yet.
pub const NONE: Words = Words {
    strict: false,
    entries: false,
};

// R349: one known word more; none where the word is unknown.
#[tactic(auto, unfolding(crate::specs::Words::with_known))]
fn with_known(words: Words, word: &[u8]) -> Option<Words>
    ensures { result ≡ with_known words word.now }
{
    if word == b"--strict".as_slice() {
        return Some(Words {
            strict: true,
            ..words
        });
    }
    if word == b"--entries".as_slice() {
        return Some(Words {
            entries: true,
            ..words
        });
    }
    None
}

// R349: one word more. An error, from the first unknown word on, has what the known words asked for.
#[tactic(auto, unfolding(crate::specs::Words::with_word))]
pub fn with_word(words: Result<Words, Words>, word: &[u8]) -> Result<Words, Words>
    ensures { result ≡ with_word words word.now }
{
    match words {
        Ok(asked) => with_known(asked, word).ok_or(asked),
        Err(asked) => Err(with_known(asked, word).unwrap_or(asked)),
    }
}

// ---- Input and output

// After 2^64 - 1 tries, which no run comes to: so each loop ends.
const TOO_MANY_TRIES: &str = "gave up reading or writing after 2^64 tries";

// Reads until the space is full or the input gives nothing more, and gives how many bytes were read; they are the
// space's first; with an error, some of them may stand there. A read that a signal interrupted is tried again. Nothing
// is allocated.
pub fn filled<R: Read>(input: &mut R, space: &mut [u8]) -> io::Result<usize>
    ensures room { length space.new ≡ length space.old }
    ensures fits { IfOk result (λ n. n ≤ length space.new) }
    ensures consumed { IfOk result (λ n. Consumes (R.remaining input.old) (R.remaining input.new) (take n space.new)) }
    ensures all { IfOk result (λ n. n < length space.new → IsAtEnd (R.remaining input.new)) }
    ensures front { OnErr result (ConsumesInto (R.remaining input.old) (R.remaining input.new) space.new) }
{
    let mut n: usize = 0;
    'reads: for _ in 0..u64::MAX {
        if space.len() <= n {
            return Ok(n);
        }
        match input.read(&mut space[n..]) {
            Ok(0) => return Ok(n),
            Ok(more) => n += more,
            Err(e) if e.kind() == ErrorKind::Interrupted => {}
            Err(e) => return Err(e),
        }
    }
    Err(io::Error::new(ErrorKind::TimedOut, TOO_MANY_TRIES))
}

// Beside `filled`, since reading and writing are two traits. Writes all of the bytes, as `write_all` does, of which no
// contract says what an error leaves: here a front part of the bytes was written.
pub fn put_all<W: Write>(out: &mut W, bytes: &[u8]) -> io::Result<()>
    ensures all { OnOk result (Appends (W.contents out.old) (W.contents out.new) bytes.now) }
    ensures front { OnErr result (AppendsFront (W.contents out.old) (W.contents out.new) bytes.now) }
{
    let mut at: usize = 0;
    'writes: for _ in 0..u64::MAX {
        if bytes.len() <= at {
            return Ok(());
        }
        match out.write(&bytes[at..]) {
            Ok(0) => {
                let message = "failed to write whole buffer";
                return Err(io::Error::new(ErrorKind::WriteZero, message));
            }
            Ok(more) => at += more,
            Err(e) if e.kind() == ErrorKind::Interrupted => {}
            Err(e) => return Err(e),
        }
    }
    Err(io::Error::new(ErrorKind::TimedOut, TOO_MANY_TRIES))
}

// ---- The words of a run. Each program asks for them, for the rules by them and for its input in its own `main`, since
// the space that the input is read into is lent by it, and no function can hand one out.

// What the words ask for that the program of this name was started with; where one is unknown, how the program is asked
// is written to standard error, and that is all to be done. What the system hands over is in no contract, so this has
// none but that it is safe and ends. A word of more than 16 bytes is read as an empty one, which is unknown too; 16 is
// more than every known word has. An error is that of writing to standard error.
pub fn given(
    rt: &impl Env,
    standard_error: &mut impl Write,
    program: &[u8],
) -> io::Result<Result<Words, Words>> {
    let mut words = Ok(NONE);
    for i in 1..usize::MAX {
        let mut space = [0u8; 16];
        let word = match rt.arg(i, &mut space) {
            Ok(n) => &space[..n],
            Err(FillError::TooLong) => b"",
            Err(FillError::NotPresent) => break,
        };
        words = with_word(words, word);
    }
    if words.is_err() {
        usage(standard_error, program)?;
    }
    Ok(words)
}

fn usage(standard_error: &mut impl Write, program: &[u8]) -> io::Result<()> {
    put_all(standard_error, b"usage: ")?;
    put_all(standard_error, program)?;
    put_all(standard_error, b" [--strict] [--entries] < TEXT\n")
}
