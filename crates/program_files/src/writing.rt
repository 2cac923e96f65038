//! How a text is written.
ghost use Rattle.std.specs.Prelude.{OnOk, OnErr, ◌++◌, ◌∷◌, []};
ghost use Rattle.std.specs.Io.KnownBytes.{Appends, WriteAppends};
ghost use Rattle.std.specs.Io.{WritesAtMost};
ghost use Rattle.program_files.specs.PartialWrites.{AppendsBeginning};

use std::io::{Error, ErrorKind, Result, Write};

/// Writes a text and flushes it, or a beginning of it where a write or the flush fails.
pub fn write_text<W: Write>(writer: &mut W, text: &[u8]) -> Result<()>
    ensures ok { OnOk result (Appends (W.contents writer.old) (W.contents writer.new) text.now) }
    ensures err { OnErr result
        (AppendsBeginning (W.contents writer.old) (W.contents writer.new) text.now) }
{
    let mut done = 0;
    'writing: for _ in 0..u64::MAX {
        if done == text.len() {
            return writer.flush();
        }
        done += write_some(writer, &text[done..])?;
    }
    Err(Error::from(ErrorKind::WriteZero))
}

/// Writes what a program says, or as much of it as can be written.
pub fn write_message<W: Write>(writer: &mut W, message: &str)
    ensures { AppendsBeginning (W.contents writer.old) (W.contents writer.new) message.now }
{
    let _ = write_text(writer, message.as_bytes());
}

/// Writes two texts and a line feed, or a beginning of that if a write or a flush fails.
fn write_parts<W: Write>(writer: &mut W, prefix: &[u8], text: &[u8]) -> Result<()>
    ensures ok { OnOk result (Appends (W.contents writer.old) (W.contents writer.new)
        (prefix.now ++ (text.now ++ 10 ∷ []))) }
    ensures err { OnErr result (AppendsBeginning (W.contents writer.old) (W.contents writer.new)
        (prefix.now ++ (text.now ++ 10 ∷ []))) }
{
    write_text(writer, prefix)?;
    write_text(writer, text)?;
    write_text(writer, b"\n")
}

/// Writes a line that says what is wrong, or as much of it as can be written: what it begins with, a text, and a line
/// feed.
pub fn write_line<W: Write>(writer: &mut W, prefix: &str, text: &[u8])
    ensures { AppendsBeginning (W.contents writer.old) (W.contents writer.new)
        (prefix.now ++ (text.now ++ 10 ∷ [])) }
{
    let _ = write_parts(writer, prefix.as_bytes(), text);
}

/// Writes a beginning of the text, which is empty where a signal came first, and returns how long it is.
fn write_some<W: Write>(writer: &mut W, text: &[u8]) -> Result<usize>
    ensures bound { WritesAtMost result text.now }
    ensures bytes { WriteAppends (W.contents writer.old) (W.contents writer.new) result text.now }
{
    match writer.write(text) {
        Ok(0) => Err(Error::from(ErrorKind::WriteZero)),
        Ok(n) => Ok(n),
        Err(e) if e.kind() == ErrorKind::Interrupted => Ok(0),
        Err(e) => Err(e),
    }
}
