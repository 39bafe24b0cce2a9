//! From replies to their text.
ghost use Rattle.std.specs.Prelude.{◌≡◌, ◌≤◌, ◌∷◌, [], ◌++◌, List, ℕ, OnOk, IfErr, IfSome, MatchOption, length, string_bytes, take, true};
ghost use Rattle.std.specs.Io.KnownBytes.{Appends, Keeps};
ghost use Rattle.std.specs.Fmt.{decimal};
ghost use Rattle.std.specs.List.{join_by};
ghost use Rattle.hibitset_run.specs.Script.{answer_of};
ghost use Rattle.hibitset_run.specs.Text.{printed, reply_text};
ghost use Rattle.hibitset_run.specs.ScriptParser.{IsPrintFault, Moves, WritesFront};

use super::{Ended, Reply};
use hibitset::Index;
use std::alloc::{AllocError, Global};
use std::io::{self, Write};

// How many bytes of text are ready before they are written.
const PIECE: usize = 64 * 1024;

// A reply that is printed as one line.
pub(crate) trait Printed {
    // The text of the line, without its newline.
    ghost shown: { Self → List ℕ };

    fn put_line(&self, text: &mut String) -> Result<(), AllocError>
        ensures { OnOk result (string_bytes text.new
            ≡ string_bytes text.old ++ (shown self.now ++ 10 ∷ [])) };
}

// Writes one line a reply, in pieces. With no reply it makes no write.
pub(crate) fn print<W: Write, R: Printed>(
    alloc: Global,
    writer: &mut W,
    replies: &[R],
) -> Result<(), Ended>
    ensures ok { OnOk result (Appends (W.contents writer.old) (W.contents writer.new)
        (printed R.shown replies.now)) }
    ensures err { IfErr result (λ fault. IsPrintFault fault
        × WritesFront (W.contents writer.old) (W.contents writer.new)
        (printed R.shown replies.now)) }
{
    let mut text = String::new(alloc);
    for reply in replies {
        if reply.put_line(&mut text).is_err() {
            return Err(Ended::NoMemory);
        }
        put_piece(writer, &mut text)?;
    }
    put_out(writer, &mut text)
}

// Writes the text that is ready, where there is a piece of it.
fn put_piece<W: Write>(writer: &mut W, text: &mut String) -> Result<(), Ended>
    ensures ok { OnOk result (Moves (W.contents writer.old) (W.contents writer.new)
        (string_bytes text.old) (string_bytes text.new)) }
    ensures err { IfErr result (λ fault. IsPrintFault fault
        × WritesFront (W.contents writer.old) (W.contents writer.new) (string_bytes text.old)) }
{
    if text.len() < PIECE {
        return Ok(());
    }
    put_out(writer, text)
}

// Writes the text that is ready, if there is any.
fn put_out<W: Write>(writer: &mut W, text: &mut String) -> Result<(), Ended>
    ensures ok { OnOk result (Appends (W.contents writer.old) (W.contents writer.new)
        (string_bytes text.old)) }
    ensures empty { OnOk result (string_bytes text.new ≡ []) }
    ensures err { IfErr result (λ fault. IsPrintFault fault
        × WritesFront (W.contents writer.old) (W.contents writer.new) (string_bytes text.old)) }
{
    if text.is_empty() {
        return Ok(());
    }
    if !put_bytes(writer, text.as_bytes()) || writer.flush().is_err() {
        return Err(Ended::OutputFailed);
    }
    text.clear();
    Ok(())
}

// Writes the bytes, and returns whether the writer took all of them.
//
// `write_all` does not say what it wrote before it failed.
fn put_bytes<W: Write>(writer: &mut W, bytes: &[u8]) -> bool
    ensures all { result ≡ true → Appends (W.contents writer.old) (W.contents writer.new)
        bytes.now }
    ensures front { WritesFront (W.contents writer.old) (W.contents writer.new) bytes.now }
{
    let mut rest = bytes;
    for _round in 0..u64::MAX {
        if rest.is_empty() {
            return true;
        }
        let Some(count) = put_some(writer, rest) else {
            return false;
        };
        rest = &rest[count..];
    }
    // It gave up, as std does where a writer never takes all.
    false
}

// Writes as many of the bytes as the writer takes at once, and none if a signal interrupts it. Returns `None` if it
// failed, or takes no more.
fn put_some<W: Write>(writer: &mut W, bytes: &[u8]) -> Option<usize>
    ensures within { IfSome result (λ count. count ≤ length bytes.now) }
    ensures written { MatchOption result (Keeps (W.contents writer.old) (W.contents writer.new))
        (λ count. Appends (W.contents writer.old) (W.contents writer.new) (take count bytes.now)) }
{
    match writer.write(bytes) {
        Ok(0) => None,
        Ok(count) => Some(count),
        Err(error) if error.kind() == io::ErrorKind::Interrupted => Some(0),
        Err(_) => None,
    }
}

impl Printed for Reply {
    ghost shown = { λ reply. reply_text (answer_of reply) };

    fn put_line(&self, text: &mut String) -> Result<(), AllocError> {
        match self {
            Reply::Bool(holds) => writeln!(text, "{holds}"),
            Reply::List(indices) => put_indices(text, indices),
            Reply::Count(count) => writeln!(text, "{count}"),
            Reply::Done => text.push_str("ok\n"),
            Reply::OutOfRange => text.push_str("out of range\n"),
            Reply::NoMemory => text.push_str("no memory\n"),
        }
    }
}

// Indices in decimal, parted by one space.
fn put_indices(text: &mut String, indices: &[Index]) -> Result<(), AllocError>
    ensures { OnOk result (string_bytes text.new
        ≡ string_bytes text.old ++ (join_by decimal (32 ∷ []) indices.now ++ 10 ∷ [])) }
{
    let mut space = "";
    for index in indices {
        write!(text, "{space}{index}")?;
        space = " ";
    }
    text.push_str("\n")
}
