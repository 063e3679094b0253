ghost use Rattle.std.specs.Prelude.{◌≡◌, ◌+◌, ◌^◌, ◌<◌, ◌≤◌, ◌∷◌, length, take, IfErr, OnErr, OnOk};
ghost use Rattle.bk_frames.specs.Device.{CanBeUsed};
ghost use Rattle.bk_base.specs.Feed.{frame_of, frame_text, kind_number};
ghost use Rattle.bk_frames.specs.Writing.{Writes, StopsWriting};
ghost use Rattle.std.specs.Int.{w32, to_be_bytes};

use crate::device::Sink;
use bk_base::{Kind, MOST_PAYLOAD};
use thiserror::Error;

/// The sink failed after it had taken some bytes.
#[derive(Clone, Copy, Debug, PartialEq, Eq, Error)]
#[error("write failed")]
pub struct WriteFault {
    /// How many bytes of what was to be written are out.
    pub written: u64,
}

/// Pushes all of the bytes. Where the sink fails, exactly the first `written` of them are out.
pub fn push_all<K: Sink>(sink: &mut K, bytes: &[u8]) -> Result<(), WriteFault>
    requires { CanBeUsed (K.state sink.old) }
    ensures ok { OnOk result (Writes bytes.now (K.state sink.old) (K.state sink.new)) }
    ensures fault { IfErr result (λ e. StopsWriting e bytes.now (K.state sink.old)
        (K.state sink.new)) }
{
    let mut done = 0;
    while done < bytes.len() {
        match sink.push(&bytes[done..]) {
            Ok(count) => done += count,
            Err(_) => {
                let written = done as u64;
                return Err(WriteFault { written });
            }
        }
    }
    Ok(())
}

// A frame's first five bytes: its kind, and the length of its payload.
fn header(kind: Kind, len: u32) -> [u8; 5]
    ensures { result ≡ kind_number kind ∷ to_be_bytes w32 len }
{
    let [a, b, c, d] = len.to_be_bytes();
    [kind as u8, a, b, c, d]
}

/// Writes a frame: its kind, the length of its payload in four bytes, and its payload. Where the sink fails, exactly
/// the first `written` bytes of it are out.
pub fn write_frame<K: Sink>(sink: &mut K, kind: Kind, payload: &[u8]) -> Result<(), WriteFault>
    requires sound { CanBeUsed (K.state sink.old) }
    requires short { length payload.now ≤ MOST_PAYLOAD }
    ensures ok { OnOk result (Writes (frame_text (frame_of kind payload.now)) (K.state sink.old)
        (K.state sink.new)) }
    ensures fault { IfErr result (λ e.
        StopsWriting e (frame_text (frame_of kind payload.now)) (K.state sink.old) (K.state sink.new)) }
{
    let header = header(kind, payload.len() as u32);
    push_all(sink, &header)?;
    match push_all(sink, payload) {
        Ok(()) => Ok(()),
        Err(fault) => {
            let written = fault.written + 5;
            Err(WriteFault { written })
        }
    }
}
