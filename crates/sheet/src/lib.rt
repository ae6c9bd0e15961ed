// The sheet on which the records of a text are gathered: numbers are given away, and records put. What is pub is so only because crates are split.
#![tactic(auto)]

ghost use Rattle.std.specs.Prelude.{◌≡◌, ◌<◌, ◌≤◌, take};

use axes::Axis;
use constraints::Kind;

// The bytes of 48 records, more than a text of 16 variables needs.
const ROOM: usize = 192;

// An array with its length, in fixed memory.
//
// A sheet is lent and not passed by value, since each level of brackets would copy it. Numbers stop at 17 and records
// at 48, so that no bound goes through the readers. A number is a plain byte: a struct, as Var, would be passed by a
// pointer to a copy.
#[derive(Drop)]
pub struct Sheet {
    records: [u8; ROOM],
    // The bytes of the records so far.
    length: usize,
    // The number that is given away next.
    next: u8,
    // The root's number, once a path has started there.
    root: Option<u8>,
    ghost room: { length ≤ 192 },
    ghost some: { 0 < next },
}

impl Sheet {
    ghost use Rattle.sheet.specs.Bytes.{plain, blank_in, numbered_in, put_in, root_in, rooted_in, axis_in, move_in};

    // Variable 0 is the node where all lines end: the first number left is 1.
    pub fn new() -> Self
        ensures { plain result ≡ blank_in }
    {
        Sheet {
            records: [0; ROOM],
            length: 0,
            next: 1,
            root: None,
        }
    }

    // How many variables there are: the next number.
    pub fn variables(&self) -> u8
        ensures { result ≡ self.now.next }
    {
        self.next
    }

    // The bytes of the records.
    pub fn bytes(&self) -> &[u8]
        ensures { result.now ≡ take self.now.length self.now.records }
    {
        &self.records[..self.length]
    }

    // Gives the next number away.
    pub fn number(&mut self) -> u8
        ensures value { result ≡ self.old.next }
        ensures wrote { plain self.new ≡ numbered_in (plain self.old) }
    {
        let next = self.next;
        if next < 17 {
            self.next = next + 1;
        }
        next
    }

    // Puts a record behind the others.
    pub fn put(&mut self, kind: Kind, x: u8, y: u8, label: u8)
        ensures { plain self.new ≡ put_in kind x y label (plain self.old) }
    {
        // Four stores: by lent::put the reader took over twice the time of plain Rust.
        let at = self.length;
        if at + 4 <= ROOM {
            self.records[at] = kind.number();
            self.records[at + 1] = x;
            self.records[at + 2] = y;
            self.records[at + 3] = label;
            self.length = at + 4;
        }
    }

    // The root's number: at the first start there it gets one, and its record.
    pub fn rooted(&mut self) -> u8
        ensures value { result ≡ root_in (plain self.new) }
        ensures wrote { plain self.new ≡ rooted_in (plain self.old) }
    {
        if let Some(root) = self.root {
            return root;
        }
        let root = self.number();
        self.root = Some(root);
        self.put(Kind::Root, root, 0, 0);
        root
    }

    // The axis record of a step from x to y.
    fn put_axis(&mut self, axis: Axis, x: u8, y: u8)
        ensures { plain self.new ≡ axis_in axis x y (plain self.old) }
    {
        match axis {
            Axis::Itself => self.put(Kind::Same, x, y, 0),
            Axis::Child => self.put(Kind::Child, x, y, 0),
            Axis::Parent => self.put(Kind::Child, y, x, 0),
            Axis::Descendant => self.put(Kind::StrictlyBelow, x, y, 0),
            Axis::Ancestor => self.put(Kind::StrictlyBelow, y, x, 0),
            Axis::DescendantOrSelf => self.put(Kind::Below, x, y, 0),
            Axis::AncestorOrSelf => self.put(Kind::Below, y, x, 0),
            Axis::FollowingSibling => self.put(Kind::Before, x, y, 0),
            Axis::PrecedingSibling => self.put(Kind::Before, y, x, 0),
        }
    }

    // The axis record of a step from x to y, then any label.
    pub fn put_move(&mut self, axis: Axis, test: u8, x: u8, y: u8)
        ensures { plain self.new ≡ move_in axis test x y (plain self.old) }
    {
        self.put_axis(axis, x, y);
        if test != b'*' {
            self.put(Kind::Label, y, 0, test);
        }
    }
}
