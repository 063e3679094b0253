//! Names as lines show them.

ghost use Rattle.std.specs.Prelude.{◌≡◌, ◌≤◌, ◌++◌, codes, length, map};
ghost use Rattle.bk_frames.specs.Device.{CanBeUsed};
ghost use Rattle.bk_cli.specs.FaultLines.{Pushes};
ghost use Rattle.bk_cli.specs.Files.{shown, shown_byte};

use crate::line::{ShortLine, put_text};
use bk_frames::{Sink, WriteFault, push_all};

// A byte as a line shows it.
fn shown_byte(byte: u8) -> u8
    ensures { result ≡ shown_byte byte }
{
    if 32 <= byte && byte <= 126 {
        byte
    } else {
        b'?'
    }
}

// Bytes as a line shows them, as many as it has room for.
fn shown(bytes: &[u8]) -> ShortLine
    requires { length bytes.now ≤ 192 }
    ensures { result.items ≡ shown bytes.now }
{
    let mut line = ShortLine::new();
    for byte in bytes {
        put_text(&mut line, &[shown_byte(*byte)]);
    }
    line
}

/// Writes the bytes of a name as a line shows them: no terminal takes them for more than text.
pub(crate) fn push_shown<E: Sink>(bytes: &[u8], err: &mut E) -> Result<(), WriteFault>
    requires { CanBeUsed (E.state err.old) }
    ensures { Pushes (shown bytes.now) result (E.state err.old) (E.state err.new) }
{
    let (part, rest) = bytes.split_at(bytes.len().min(192));
    push_all(err, shown(part).as_slice())?;
    if rest.is_empty() {
        return Ok(());
    }
    push_shown(rest, err)?;
    Ok(())
}

/// Writes the line that ends so and is about what has this name.
pub(crate) fn push_line<E: Sink>(name: &str, end: &[u8], err: &mut E) -> Result<(), WriteFault>
    requires { CanBeUsed (E.state err.old) }
    ensures { Pushes (codes "bkreplay: " ++ (shown name.now ++ end.now)) result
        (E.state err.old) (E.state err.new) }
{
    push_all(err, b"bkreplay: ")?;
    push_shown(name.as_bytes(), err)?;
    push_all(err, end)?;
    Ok(())
}
