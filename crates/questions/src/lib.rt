// The questions that files, texts, trees, buffers and draws are asked, as docs/FORMAT.md numbers them. What breaks one is refused by it.
#![tactic(auto)]

ghost use Rattle.std.specs.Prelude.{◌≡◌};
ghost use Rattle.questions.specs.Number.{number};

#[derive(Clone, Copy, PartialEq, Eq)]
pub enum Question {
    // Of a constraint file: its length, whole records, and of each record its kind, its variables, its label and what it does not use.
    FileLength = 1,
    FileRecords = 2,
    Kind = 3,
    Variable = 4,
    Label = 5,
    Unused = 6,
    // Of the buffer that is lent for an answer or for records.
    Buffer = 7,
    // Of an answer file or node records: whole records, their order, how many nodes, the nodes and the places.
    AnswerRecords = 8,
    RecordOrder = 9,
    NodeCount = 10,
    Nodes = 11,
    Places = 12,
    // Of a text of paths: its form, and how many variables it needs.
    PathsForm = 13,
    PathsVariables = 14,
    // Of a tree and XML: the labels to be written, the text that is read, and the buffer that is lent.
    Nameable = 15,
    XmlForm = 16,
    XmlBuffer = 17,
    // Of a draw: the centres' list, the centre's cap and the total.
    Centres = 18,
    Cap = 19,
    Total = 20,
}

impl Question {
    // Its number, 1 to 20.
    pub fn number(self) -> u8
        ensures { result ≡ number self }
    {
        self as u8
    }
}
