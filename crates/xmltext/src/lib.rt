// What `toxml` and `fromxml` write, at the front of a lent buffer: the text of a tree, the node records of a text, or the line of a refusal.
#![tactic(auto)]

ghost use Rattle.xmltext.specs.Printing.{WrittenAs, ReadAs};

use putting::put_answer;

// Room for every text: as much as question 17 asks of the buffer that is lent for one.
pub const XML_BYTES: usize = 512;

// Room for all node records: as much as question 17 asks of the buffer that is lent for them.
pub const NODES_BYTES: usize = 256;

// As much of a text as is read: the longest that the writer produces has 438 bytes, so one past them is enough.
pub const XML_READ: usize = 439;

// Puts what `toxml` writes of the bytes it read at the front of the buffer, and answers how many bytes that are.
pub fn write(nodes: &[u8], out: &mut [u8; XML_BYTES]) -> usize
    ensures { WrittenAs nodes.now out.old result out.new }
{
    let answer = xmlwriter::write(nodes, out);
    put_answer(out, answer)
}

// Puts what `fromxml` writes of the bytes it read at the front of the buffer, and answers how many bytes that are.
pub fn read(text: &[u8], out: &mut [u8; NODES_BYTES]) -> usize
    ensures { ReadAs text.now out.old result out.new }
{
    let answer = xmlreader::read(text, out);
    put_answer(out, answer)
}
