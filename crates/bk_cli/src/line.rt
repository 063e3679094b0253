//! Short lines, of texts, numbers and digests.

ghost use Rattle.std.specs.Prelude.{◌≡◌, ◌+◌, ◌<◌, ◌≤◌, ◌++◌, codes, length};
ghost use Rattle.std.specs.List.{sum_by};
ghost use Rattle.arrayvec.specs.ArrayVec.{array_vec_len};
ghost use Rattle.bk_cli.specs.Pieces.{piece_text, room, said};

use arrayvec::ArrayVec;
use bk_digest::Digest32;
use itoa::Buffer;

/// A line of at most 192 bytes. It is on the stack: what it reports may be that memory ran out.
pub type ShortLine = ArrayVec<u8, 192>;

/// A piece of a line.
#[derive(Clone, Copy)]
pub enum Piece<'a> {
    Text(&'a [u8]),
    /// A number after a space.
    Number(u64),
    /// The digits of a digest after a space.
    Digest(&'a Digest32),
}

/// Puts a text where there is room for it.
pub(crate) fn put_text(line: &mut ShortLine, text: &[u8])
    requires { array_vec_len line.old + length text.now ≤ 192 }
    ensures items { line.new.items ≡ line.old.items ++ text.now }
    ensures len { array_vec_len line.new ≡ array_vec_len line.old + length text.now }
{
    line.try_extend_from_slice(text).unwrap();
}

// Puts a piece where there is room for it.
fn put_piece(line: &mut ShortLine, piece: Piece<'_>)
    requires { array_vec_len line.old + room piece ≤ 192 }
    ensures items { line.new.items ≡ line.old.items ++ piece_text piece.entry }
    ensures len { array_vec_len line.new ≤ array_vec_len line.old + room piece.entry }
{
    match piece {
        Piece::Text(text) => put_text(line, text),
        Piece::Number(number) => {
            put_text(line, b" ");
            put_text(line, Buffer::new().format(number).as_bytes());
        }
        Piece::Digest(digest) => {
            let mut digits = [0u8; 64];
            // There is room for all 64 digits.
            let _ = hex::encode_to_slice(digest.as_bytes(), &mut digits);
            put_text(line, b" ");
            put_text(line, &digits);
        }
    }
}

/// The line that begins with a text and has these pieces, with its line feed.
pub fn short_line(lead: &[u8], pieces: &[Piece<'_>]) -> ShortLine
    requires { length lead.now + sum_by room pieces.now < 192 }
    ensures { result.items ≡ lead.now ++ said pieces.now ++ codes "\n" }
{
    let mut line = ShortLine::new();
    put_text(&mut line, lead);
    for piece in pieces {
        put_piece(&mut line, *piece);
    }
    put_text(&mut line, b"\n");
    line
}
