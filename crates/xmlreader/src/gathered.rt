// The nodes that were read so far, in document order: how many, and of each its parent and its label, as columns in
// fixed memory.
// Node 0 is the document node.
ghost use Rattle.std.specs.Prelude.{◌≡◌, ◌*◌, ◌≤◌, length};

use questions::Question;

#[derive(Drop)]
pub struct Gathered {
    pub ups: [u8; 64],
    pub labels: [u8; 64],
    pub count: usize,
    ghost few: { count ≤ 64 },
    ghost long_ups: { length ups ≡ 64 },
    ghost long_labels: { length labels ≡ 64 },
}

impl Gathered {
    ghost use Rattle.xmlreader.specs.Gathering.{AddedOr, Fresh, NodesWritten};

    // The document node alone.
    pub fn new() -> Gathered
        ensures { Fresh result }
    {
        Gathered {
            ups: [0; 64],
            labels: [0; 64],
            count: 1,
        }
    }

    // Adds a node and answers its number, if there is room for one more.
    pub fn add(&mut self, up: u8, label: u8) -> Result<u8, Question>
        ensures { AddedOr self.old up label result self.new }
    {
        let node = self.count;
        if 64 <= node {
            return Err(Question::XmlForm);
        }
        self.ups[node] = up;
        self.labels[node] = label;
        self.count = node + 1;
        Ok(node as u8)
    }

    // Puts the node records to the front of the buffer.
    pub fn put(&self, nodes: &mut [u8])
        requires { self.now.count * 4 ≤ length nodes.old }
        ensures { NodesWritten self.now nodes.old nodes.new }
    {
        for i in 0..self.count {
            lent::put(nodes, i * 4, &[1, i as u8, self.ups[i], self.labels[i]]);
        }
    }
}
