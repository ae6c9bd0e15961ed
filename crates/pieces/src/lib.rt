// Reads a file of any length into a buffer of fixed length, where only its records' order and its front matter: an answer file, or node records.
#![tactic(auto)]

ghost use Rattle.pieces.specs.Pieces.{FillsInPieces};

use reading::fill;
use std::io;
use std::io::Read;

// As much of a file as is held at once.
pub const PIECES_READ: usize = 4096;

// Reads a file to its end. Whenever the buffer is full, what is in it is shortened, which leaves all that is judged of the whole as it is. A proved
// loop has to end, and nothing says that a file does: the loop has more turns than any run takes.
pub fn read_pieces(from: &mut impl Read, buffer: &mut [u8]) -> io::Result<usize>
    ensures { FillsInPieces result buffer.new }
{
    let mut kept: usize = 0;
    for _ in 0..u64::MAX {
        let room = buffer.len() - kept;
        let more = fill(from, &mut buffer[kept..])?;
        let end = kept + more;
        kept = answers::shorten(&mut buffer[..end]);
        if more < room {
            return Ok(kept);
        }
    }
    Err(io::Error::other("the file does not end"))
}
