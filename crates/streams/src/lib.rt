// The programs' input and output: an input that is read whole, or known not to be, bytes that are written whole, or known not to be, and a text that is
// printed piece by piece, each piece the next.
#![tactic(auto)]

ghost use Rattle.std.specs.Prelude.{ℕ, ◌≡◌, ◌+◌, ◌^◌, ◌<◌, List, IfOk, OnOk, OnErr, length, take};
ghost use Rattle.std.specs.Io.KnownBytes.{Appends, Consumes, IsAtEnd};
ghost use Rattle.std.specs.Process.{exit_status};
ghost use Rattle.streams.specs.Counts.{IsPrefixLen};
ghost use Rattle.streams.specs.Writing.{WritesFront};

use std::fmt::Display;
use std::io;
use std::io::{ErrorKind, Read, Write};
use std::process::ExitCode;

// Reads until the input ends, the buffer is full or a read fails, and says how many bytes were read, to the front of the buffer. Where no read failed,
// the input ends there, or it fills the buffer. Where one failed, so far as it was read the input stands at the front too.
pub fn read_whole<R: Read>(reader: &mut R, buf: &mut [u8]) -> io::Result<usize>
    ensures count { IfOk result (λ n. IsPrefixLen n buf.new) }
    ensures bytes { IfOk result (λ n. Consumes (R.remaining reader.old) (R.remaining reader.new) (take n buf.new)) }
    ensures whole { IfOk result (λ n. n < length buf.new → IsAtEnd (R.remaining reader.new)) }
    ensures err { OnErr result ((n : ℕ) × IsPrefixLen n buf.new
        × Consumes (R.remaining reader.old) (R.remaining reader.new) (take n buf.new)) }
{
    let mut len: usize = 0;
    while len < buf.len() {
        let more = reader.read(&mut buf[len..])?;
        if more == 0 {
            return Ok(len);
        }
        len += more;
    }
    Ok(len)
}

// Writes all of the bytes, or stops at the first write that fails or takes none of them, and then only a front of them is written.
// Kept (3): over the rest of the bytes it was tried, and three goals stayed open: what an error leaves, and what a turn keeps.
pub fn write_whole<W: Write>(out: &mut W, bytes: &[u8]) -> io::Result<()>
    ensures ok { OnOk result (Appends (W.contents out.old) (W.contents out.new) bytes.now) }
    ensures err { OnErr result (WritesFront bytes.now (W.contents out.old) (W.contents out.new)) }
{
    let mut done: usize = 0;
    while done < bytes.len() {
        let more = out.write(&bytes[done..])?;
        if more == 0 {
            return Err(io::Error::from(ErrorKind::WriteZero));
        }
        done += more;
    }
    Ok(())
}

// A text that is printed piece by piece. `IsNext` says which bytes come next in it, of which so many were written.
pub trait Text {
    ghost IsNext: { Self → ℕ → List ℕ → Type 0 };
}

// The bytes that come next in a text, of which `from` were written. No other bytes are a piece of it.
#[derive(Drop)]
pub struct Piece<'a, T: Text + Drop> {
    pub of: T,
    pub from: usize,
    pub bytes: &'a [u8],
    ghost next: { ∥ T.IsNext of from bytes.now ∥₁ },
    ghost in_range: { from + length bytes.now < 2 ^ 64 },
}

// Writes a piece, and says how many bytes of its text are written then.
pub fn write_next<W: Write, T: Text + Drop>(out: &mut W, piece: Piece<T>) -> io::Result<usize>
    ensures counts { IfOk result (λ count. count ≡ piece.entry.from + length piece.entry.bytes.now) }
    ensures writes { OnOk result (Appends (W.contents out.old) (W.contents out.new) piece.entry.bytes.now) }
    ensures front { OnErr result (WritesFront piece.entry.bytes.now (W.contents out.old) (W.contents out.new)) }
{
    write_whole(out, piece.bytes)?;
    Ok(piece.from + piece.bytes.len())
}

// Says on standard error what failed, and gives the status of a program that failed.
pub fn say<R: Eprint, D: Display + Drop>(rt: &R, what: D) -> ExitCode
    ensures { exit_status result ≡ 1 }
{
    let _ = rt.eprintln(what);
    ExitCode::FAILURE
}
