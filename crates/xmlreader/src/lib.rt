// Reads a tree that was written as XML: the outermost element to the end of the text, the elements inside it, and theirs. Parents and labels
// are gathered in document order; all of the text is read before a byte is written.
#![tactic(auto)]

ghost use Rattle.std.specs.Prelude.{◌≡◌, [], ◌∷◌};
ghost use Rattle.meaning.specs.Results.{fill_wrote};
ghost use Rattle.lent.specs.Filling.{AnswerOf};
ghost use Rattle.theory.specs.Xml.{is_name, label_named, read_xml};
ghost use Rattle.xmlreader.specs.Reading.{Opened, After, ElementRead, ElementsRead};

mod gathered;

use gathered::Gathered;
use questions::Question;

// _ or a letter.
fn is_name(byte: u8) -> bool
    ensures { result ≡ is_name byte }
{
    byte == b'_' || labels::is_letter(byte)
}

// _ names a blank: a byte of the paper's own, so no From.
fn label_named(name: u8) -> u8
    ensures { result ≡ label_named name }
{
    if name == b'_' { 0 } else { name }
}

// The name behind <, and what is left behind that.
fn opened(text: &[u8]) -> Option<(u8, &[u8])>
    ensures { Opened text.now result }
{
    match text {
        [b'<', name, left @ ..] if is_name(*name) => Some((*name, left)),
        _ => None,
    }
}

// What is left behind />.
fn after_empty(text: &[u8]) -> Option<&[u8]>
    ensures { After (47 ∷ 62 ∷ []) text.now result }
{
    match text {
        [b'/', b'>', left @ ..] => Some(left),
        _ => None,
    }
}

// What is left behind >.
fn after_bracket(text: &[u8]) -> Option<&[u8]>
    ensures { After (62 ∷ []) text.now result }
{
    match text {
        [b'>', left @ ..] => Some(left),
        _ => None,
    }
}

// What is left behind </, the name and >.
fn after_end(text: &[u8], name: u8) -> Option<&[u8]>
    ensures { After (60 ∷ 47 ∷ name ∷ 62 ∷ []) text.now result }
{
    match text {
        [b'<', b'/', end, b'>', left @ ..] if *end == name => Some(left),
        _ => None,
    }
}

// One element under the node `up`, and all that is inside it: what is left behind it. That none starts there is an answer of its own, so
// that nobody asks before.
#[cycle(element_elements)]
fn element<'a>(text: &'a [u8], up: u8, nodes: &mut Gathered) -> Result<Option<&'a [u8]>, Question>
    ensures { ElementRead text.now up nodes.old result nodes.new }
{
    let Some((name, left)) = opened(text) else {
        return Ok(None);
    };
    let label = label_named(name);
    let node = nodes.add(up, label)?;
    if let Some(after) = after_empty(left) {
        return Ok(Some(after));
    }
    let inside = after_bracket(left).ok_or(Question::XmlForm)?;
    let end = elements(inside, node, nodes)?;
    if nodes.count == node as usize + 1 {
        return Err(Question::XmlForm);
    }
    let after = after_end(end, name).ok_or(Question::XmlForm)?;
    Ok(Some(after))
}

// As many elements as follow, under the node `up`: what is left behind them. A loop, since a call for each of them would hand its answer back
// through all before it.
#[cycle(element_elements)]
fn elements<'a>(text: &'a [u8], up: u8, nodes: &mut Gathered) -> Result<&'a [u8], Question>
    ensures { ElementsRead text.now up nodes.old result nodes.new }
{
    let mut left = text;
    while let Some(after) = element(left, up, nodes)? {
        left = after;
    }
    Ok(left)
}

// Reads a text and writes the node records of its tree, numbered in document order, to the front of the buffer.
pub fn read(text: &[u8], nodes: &mut [u8]) -> Result<usize, Question>
    ensures answer_of { AnswerOf (read_xml text.now nodes.old) result }
    ensures wrote { nodes.new ≡ fill_wrote (read_xml text.now nodes.old) nodes.old }
{
    if nodes.len() < 256 {
        return Err(Question::XmlBuffer);
    }
    let mut gathered = Gathered::new();
    let left = element(text, 0, &mut gathered)?.ok_or(Question::XmlForm)?;
    if !left.is_empty() {
        return Err(Question::XmlForm);
    }
    gathered.put(nodes);
    Ok(gathered.count * 4)
}
