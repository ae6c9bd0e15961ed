// Words, numbers and the lines of records, put into a lent buffer one behind the other.
#![tactic(auto)]

ghost use Rattle.std.specs.Prelude.{◌≡◌, ◌++◌, ◌+◌, ◌*◌, ◌/◌, ◌≤◌, length};
ghost use Rattle.meaning.specs.Files.{quad, quads};
ghost use Rattle.meaning.specs.Ascii.{ascii};
ghost use Rattle.meaning.specs.Text.{decimal, numbered, kind_name, record_line, record_lines};
ghost use Rattle.questions.specs.Number.{number};
ghost use Rattle.constraints.specs.Record.{kind_number};
ghost use Rattle.putting.specs.Pages.{HasRoom, Same, Puts};
ghost use Rattle.putting.specs.Fronts.{Shown};

use constraints::Kind;
use questions::Question;

// A lent buffer, of which the first bytes are written.
#[derive(Drop)]
pub struct Page<'a> {
    out: &'a mut [u8],
    at: usize,
}

impl<'a> Page<'a> {
    // Nothing is written.
    pub fn new(out: &'a mut [u8]) -> Page<'a>
        ensures same { result.out.ghost_name ≡ out.entry.ghost_name }
        ensures whole { result.out.now ≡ out.old }
        ensures blank { result.at ≡ 0 }
    {
        Page { out, at: 0 }
    }

    // How many bytes are written.
    pub fn written(&self) -> usize
        ensures { result ≡ self.now.at }
    {
        self.at
    }

    // Puts a word behind what is written.
    pub fn put(&mut self, word: &[u8])
        requires { HasRoom self.old (length word.now) }
        ensures same { Same self.old self.new }
        ensures put { Puts self.old word.now self.new }
    {
        self.at = lent::put(self.out, self.at, word);
    }

    // Puts the digits of a number: those of its tenth, if it has one, and the last. Display's clause speaks only of a
    // write that succeeds.
    pub fn number(&mut self, n: u64)
        requires { HasRoom self.old (length (decimal n)) }
        ensures same { Same self.old self.new }
        ensures put { Puts self.old (decimal n) self.new }
    {
        if n >= 10 {
            self.number(n / 10);
        }
        self.put(&[b'0' + (n % 10) as u8])
    }

    // Puts a word and a number, which end their line.
    pub fn line(&mut self, word: &[u8], n: u32)
        requires { HasRoom self.old (length word.now + 11) }
        ensures same { Same self.old self.new }
        ensures put { Puts self.old (word.now ++ (decimal n ++ ascii "\n")) self.new }
    {
        self.put(word);
        self.number(n as u64);
        self.put(b"\n")
    }

    // Puts the line of a refusal.
    pub fn refused(&mut self, question: Question)
        requires { HasRoom self.old 19 }
        ensures same { Same self.old self.new }
        ensures put { Puts self.old (numbered "refused " (number question)) self.new }
    {
        self.line(b"refused ", question.number() as u32)
    }

    // Puts a word and two numbers, with a space after the first.
    fn pair(&mut self, word: &[u8], a: u8, b: u8)
        requires { HasRoom self.old (length word.now + 7) }
        ensures same { Same self.old self.new }
        ensures put { Puts self.old (word.now ++ (decimal a ++ (ascii " " ++ decimal b))) self.new }
    {
        self.put(word);
        self.number(a as u64);
        self.put(b" ");
        self.number(b as u64)
    }

    // Puts the line of one record. Its kind is a byte of the answer file, as it lies there.
    fn record(&mut self, kind: u8, a: u8, b: u8, c: u8)
        requires { HasRoom self.old 17 }
        ensures same { Same self.old self.new }
        ensures put { Puts self.old (record_line (quad kind a b c)) self.new }
    {
        if kind != 1 {
            self.pair(b"var ", a, b);
            return self.put(b"\n");
        }
        self.pair(b"node ", a, b);
        self.put(b" ");
        self.number(c as u64);
        self.put(b"\n")
    }

    // Puts a line for each record of an answer file.
    pub fn records(&mut self, answer: &[u8])
        requires { HasRoom self.old (length answer.now / 4 * 17) }
        ensures same { Same self.old self.new }
        ensures put { Puts self.old (record_lines (quads answer.now)) self.new }
    {
        let (records, _) = answer.as_chunks::<4>();
        for &[kind, a, b, c] in records {
            self.record(kind, a, b, c);
        }
    }
}

// The name of a kind, lent to a page, so no Display.
pub fn kind_word(kind: Kind) -> &'static [u8]
    ensures { result.now ≡ ascii (kind_name (kind_number kind)) }
{
    match kind {
        Kind::Child => b"child",
        Kind::Below => b"below",
        Kind::StrictlyBelow => b"strictly-below",
        Kind::Same => b"same",
        Kind::Differ => b"differ",
        Kind::Root => b"root",
        Kind::Leaf => b"leaf",
        Kind::Label => b"label",
        Kind::Before => b"before",
    }
}

// Where a buffer was filled it is left as it is; else the line of the refusal is put at its front. Answers how many bytes are to be printed.
pub fn put_answer(out: &mut [u8], answer: Result<usize, Question>) -> usize
    requires { 19 ≤ length out.old }
    ensures { Shown answer out.old result out.new }
{
    match answer {
        Ok(bytes) => bytes,
        Err(question) => {
            let mut page = Page::new(out);
            page.refused(question);
            page.written()
        }
    }
}
