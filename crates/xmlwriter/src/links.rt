// Links from each node to its first child and its next sibling, and its name, as columns in fixed memory. 0 is no
// node: nobody's child.
ghost use Rattle.std.specs.Prelude.{◌≡◌, ◌<◌, length, get_or, replicate};
ghost use Rattle.meaning.specs.Xml.{name_of};

#[derive(Drop)]
pub struct Links {
    pub first: [u8; 64],
    pub next: [u8; 64],
    pub names: [u8; 64],
    ghost long_first: { length first ≡ 64 },
    ghost long_next: { length next ≡ 64 },
    ghost long_names: { length names ≡ 64 },
}

// _ is the name of a blank: a byte of the paper's own, so no From.
fn name_of(label: u8) -> u8
    ensures { result ≡ name_of label }
{
    if label == 0 { b'_' } else { label }
}

impl Links {
    ghost use Rattle.xmlwriter.specs.Links.{forest_in, Linkable, Added, Linked, Fits, ForestWritten};

    // No node has a child.
    pub fn new() -> Links
        ensures { result.first ≡ replicate 64 0 }
    {
        Links {
            first: [0; 64],
            next: [0; 64],
            names: [0; 64],
        }
    }

    // Links a node before the children of its parent that are linked already.
    fn add(&mut self, node: usize, up: usize, label: u8)
        requires { (node < 64) × (up < 64) }
        ensures { Added self.old node up label self.new }
    {
        self.names[node] = name_of(label);
        self.next[node] = self.first[up];
        self.first[up] = node as u8;
    }

    // Links the nodes of accepted records, none of which has a child yet: from the last to the first, so that each is
    // put before its later siblings. Lent, since an answer by value was copied once more.
    pub fn link(&mut self, nodes: &[u8])
        requires { Linkable nodes.now × (self.old.first ≡ replicate 64 0) }
        ensures { Linked self.new 1 (get_or self.new.first 0 0) (forest_in nodes.now) }
    {
        for k in (1..nodes.len() / 4).rev() {
            self.add(k, nodes[k * 4 + 2] as usize, nodes[k * 4 + 3]);
        }
    }

    // Puts the element v, all that is inside it and those after it, none if v is 0. Each node is met once, so that no more calls are open than
    // there are nodes.
    pub fn put_elements(&self, v: u8, text: &mut [u8], at: usize) -> usize
        requires { Fits self.now v text.old at }
        ensures { ForestWritten self.now v text.old at result text.new }
    {
        if v == 0 {
            return at;
        }
        let i = v as usize;
        let name = self.names[i];
        let inner = self.first[i];
        let after = self.next[i];
        if inner == 0 {
            let end = lent::put(text, at, &[b'<', name, b'/', b'>']);
            return self.put_elements(after, text, end);
        }
        let inside = lent::put(text, at, &[b'<', name, b'>']);
        let closing = self.put_elements(inner, text, inside);
        let end = lent::put(text, closing, &[b'<', b'/', name, b'>']);
        self.put_elements(after, text, end)
    }
}
