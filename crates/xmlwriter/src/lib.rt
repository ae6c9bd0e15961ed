// Writes a tree as XML. Its node records are asked 8 to 11, the lent buffer 17, its labels 15. Then each node's first child and next sibling are
// linked, and the elements are written from the outermost one on: everything is read before a byte is written.
#![tactic(auto)]

ghost use Rattle.std.specs.Prelude.{◌≡◌, ◌≤◌, length, get_or};
ghost use Rattle.std.specs.List.{list_all};
ghost use Rattle.meaning.specs.Results.{fill_wrote};
ghost use Rattle.meaning.specs.Xml.{is_nameable, forest_text};
ghost use Rattle.lent.specs.Filling.{AnswerOf};
ghost use Rattle.lent.specs.Putting.{Put};
ghost use Rattle.theory.specs.Xml.{write_xml};
ghost use Rattle.xmlwriter.specs.Links.{forest_in, Linkable};

mod links;

use links::Links;
use questions::Question;

// Question 15 of a label: 0 or a letter.
fn is_nameable(label: u8) -> bool
    ensures { result ≡ is_nameable label }
{
    label == 0 || labels::is_letter(label)
}

// Question 15 of every node.
fn all_nameable(nodes: &[[u8; 4]]) -> bool
    ensures { result ≡ list_all (λ node. is_nameable (get_or node 3 0)) nodes.now }
{
    nodes.iter().all(|node| is_nameable(node[3]))
}

// Puts the outermost element of accepted records.
fn put_tree(nodes: &[u8], text: &mut [u8]) -> usize
    requires { Linkable nodes.now × (length (forest_text (forest_in nodes.now)) ≤ length text.old) }
    ensures { Put text.old 0 (forest_text (forest_in nodes.now)) result text.new }
{
    let mut links = Links::new();
    links.link(nodes);
    let outermost = links.first[0];
    links.put_elements(outermost, text, 0)
}

// Writes the text of a tree, given by its node records, to the front of the buffer.
pub fn write(nodes: &[u8], text: &mut [u8]) -> Result<usize, Question>
    ensures answer_of { AnswerOf (write_xml nodes.now text.old) result }
    ensures wrote { text.new ≡ fill_wrote (write_xml nodes.now text.old) text.old }
{
    answers::judge_nodes(nodes)?;
    if text.len() < 512 {
        return Err(Question::XmlBuffer);
    }
    if !all_nameable(nodes.as_chunks::<4>().0) {
        return Err(Question::Nameable);
    }
    Ok(put_tree(nodes, text))
}
