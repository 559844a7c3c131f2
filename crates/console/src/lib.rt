// What the programs share: reading their input and writing a text.
#![tactic(auto)]

ghost use Rattle.std.specs.Prelude.{◌≡◌, ◌≤◌, true, false, length, take, drop};
ghost use Rattle.std.specs.Io.KnownBytes.{Keeps, Appends, Consumes};
ghost use Rattle.text.specs.Ascii.{ascii};
ghost use Rattle.text.specs.Shown.{shown};
ghost use Rattle.console.specs.Counts.{IsPrefixLen};
ghost use Rattle.console.specs.Written.{Took, AppendsFront};

use std::io::{Read, Write};
use text::Text;

// Reads up to `n` bytes of the input into the front of the buffer and returns how many there were; none where the buffer is shorter.
// What stands behind the first `n` bytes stays as it was. A read that fails counts as the end of the input. `n` stands beside the buffer and
// is no slice's length: docs/DECISIONS.md names this function, and its edit `longer_than_the_buffer` is about that test.
pub fn read_next<R: Read>(input: &mut R, buffer: &mut [u8], n: usize) -> usize
    ensures counts { IsPrefixLen result buffer.new }
    ensures most { result ≤ n }
    ensures kept { drop n buffer.new ≡ drop n buffer.old }
    ensures bytes { Consumes (R.remaining input.old) (R.remaining input.new) (take result buffer.new) }
{
    if buffer.len() < n {
        return 0;
    }
    read_full(input, &mut buffer[..n])
}

// Reads until the buffer is full, the input ends or a read fails, and returns how many bytes it put at the front of the buffer.
fn read_full<R: Read>(input: &mut R, buffer: &mut [u8]) -> usize
    ensures counts { IsPrefixLen result buffer.new }
    ensures bytes { Consumes (R.remaining input.old) (R.remaining input.new) (take result buffer.new) }
{
    let mut done = 0;
    // A `while`, since a turn goes on by as many bytes as the call read, and not by one.
    while done < buffer.len() {
        let got = read_once(input, &mut buffer[done..]);
        if got == 0 {
            return done;
        }
        done += got;
    }
    done
}

// Reads with one call into the front of the buffer and returns how many bytes there were; none where the read failed.
fn read_once<R: Read>(input: &mut R, buffer: &mut [u8]) -> usize
    ensures counts { IsPrefixLen result buffer.new }
    ensures bytes { Consumes (R.remaining input.old) (R.remaining input.new) (take result buffer.new) }
{
    input.read(buffer).unwrap_or(0)
}

// How many bytes of a text an output took, and whether these are all that it shows. A struct and not a `Result`: `show` and `warn`, which
// docs/DECISIONS.md names, hand it back, and their clauses speak of both fields.
#[derive(Clone, Copy)]
pub struct Written {
    pub taken: usize,
    pub whole: bool,
}

// The bytes that a text shows.
fn shown_bytes(t: &Text) -> &[u8]
    ensures { result.now ≡ shown t.now }
{
    &t.bytes[..t.length.min(2560)]
}

// Writes with one call and returns how many bytes the output took; none where the write failed.
fn write_once<W: Write>(output: &mut W, bytes: &[u8]) -> usize
    ensures most { result ≤ length bytes.now }
    ensures bytes { Appends (W.contents output.old) (W.contents output.new) (take result bytes.now) }
{
    output.write(bytes).unwrap_or(0)
}

// Writes all bytes with one call, byte by byte once that took fewer, and returns how many the output took. An output that refuses a long
// write and takes a short one gets what it takes: a pipe, say, that is not waited for and has less room than the text.
fn write_bytes<W: Write>(output: &mut W, bytes: &[u8]) -> usize
    ensures most { result ≤ length bytes.now }
    ensures bytes { Appends (W.contents output.old) (W.contents output.new) (take result bytes.now) }
{
    let mut done = write_once(output, bytes);
    // A `while`, since a turn goes on by as many bytes as the call took, and not by one.
    while done < bytes.len() {
        let taken = write_once(output, &bytes[done..done + 1]);
        if taken == 0 {
            return done;
        }
        done += taken;
    }
    done
}

// Writes what a text shows.
fn put<W: Write>(output: &mut W, t: Text) -> Written
    ensures took { Took (shown t) result }
    ensures bytes { Appends (W.contents output.old) (W.contents output.new) (take result.taken (shown t)) }
{
    let bytes = shown_bytes(&t);
    let taken = write_bytes(output, bytes);
    let whole = taken == bytes.len();
    Written { taken, whole }
}

// Writes what a text shows to the output. That it did not take all of it is said among the errors.
pub fn show<W: Write, E: Write>(output: &mut W, errors: &mut E, t: Text) -> Written
    ensures took { Took (shown t) result }
    ensures bytes { Appends (W.contents output.old) (W.contents output.new) (take result.taken (shown t)) }
    ensures whole { result.whole ≡ true → Keeps (E.contents errors.old) (E.contents errors.new) }
    ensures failed { result.whole ≡ false → AppendsFront (E.contents errors.old) (E.contents errors.new) (ascii "standard output failed\n") }
{
    let written = put(output, t);
    if !written.whole {
        write_bytes(errors, b"standard output failed\n");
    }
    written
}

// Writes what a text shows to the errors.
pub fn warn<E: Write>(errors: &mut E, t: Text) -> Written
    ensures took { Took (shown t) result }
    ensures bytes { Appends (E.contents errors.old) (E.contents errors.new) (take result.taken (shown t)) }
{
    put(errors, t)
}
