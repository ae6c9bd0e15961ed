// The given facts of an accepted constraint file, as tables to settle from.
#![tactic(auto)]

ghost use Rattle.std.specs.Prelude.{◌≡◌, ℕ, ◌%◌, Ok};
ghost use Rattle.constraints.specs.Judgement.{judgement};
ghost use Rattle.constraints.specs.Record.{kind_number};
ghost use Rattle.seed.specs.Seeds.{labelled, second_label, kind_row, RowsOf, TogetherOf, SeedsOf};

use constraints::Kind;
use tables::Facts;

// A label, or the one that is given.
#[tactic(auto, using(tables::proofs::Helpers::pick_on, tables::proofs::Helpers::pick_off), unfolding(crate::specs::Seeds::labelled))]
fn label_with(given: bool, old: u8, new: u8) -> u8
    ensures { result ≡ labelled given old new }
{
    if given { new } else { old }
}

// Another label than the one that stands. One product and not two tests, which are compiled to branches that a mix of records mispredicts.
fn second_label(old: u8, new: u8) -> bool
    ensures { result ≡ second_label old new }
{
    let change = old ^ new;
    old as u16 * change as u16 != 0
}

// A kind or a variable as an index. Those of an accepted file are below 16.
fn index(byte: u8) -> usize
    ensures { result ≡ byte % 16 }
{
    byte as usize % 16
}

// The rows of one kind.
fn table(rows: &[u16; 256], kind: Kind) -> [u16; 16]
    ensures { RowsOf (kind_row rows.now (kind_number kind)) result }
{
    let at = kind as usize * 16;
    let mut a = [0u16; 16];
    a.copy_from_slice(&rows[at..at + 16]);
    a
}

// The tables, from the rows and columns by kind. Root and leaf have 0 for y, so each is one column.
#[tactic(auto, using(crate::proofs::Parts::both_of))]
fn put_together(rows: &[u16; 256], columns: &[u16; 256], label: [u8; 16]) -> Facts
    ensures { TogetherOf rows.now columns.now label result }
{
    let child = table(rows, Kind::Child);
    let parent = table(columns, Kind::Child);
    let before = table(rows, Kind::Before);
    let after = table(columns, Kind::Before);
    let strictly_below = table(rows, Kind::StrictlyBelow);
    let strictly_above = table(columns, Kind::StrictlyBelow);
    let same = tables::either(table(rows, Kind::Same), table(columns, Kind::Same));
    let apart = tables::either(table(rows, Kind::Differ), table(columns, Kind::Differ));
    let below = tables::either(
        table(rows, Kind::Below),
        tables::either(strictly_below, same),
    );
    let differ = tables::either(
        tables::either(tables::either(child, parent), tables::either(before, after)),
        tables::either(tables::either(strictly_below, strictly_above), apart),
    );
    let root = columns[Kind::Root as usize * 16];
    let leaf = columns[Kind::Leaf as usize * 16];
    Facts {
        child,
        parent,
        below,
        above: [0; 16],
        differ,
        before,
        after,
        root,
        label,
        leaf,
    }
}

// The tables of the given facts, ready to be settled; None as soon as a variable is given a second label, case aside,
// which no tables hold. The records are gathered by kind here, where the arrays are, and not in a function that hands
// them back: that would copy a kilobyte.
pub fn seed(file: &[u8]) -> Option<Facts>
    requires { (n : ℕ) × (judgement file.now ≡ Ok n) }
    ensures { SeedsOf file.now result }
{
    // bit y of row 16·kind + x and bit x of column 16·kind + y: there is a record of that kind with x and y
    let mut rows = [0u16; 256];
    let mut columns = [0u16; 256];
    let mut label = [0u8; 16];
    let (records, _) = file.as_chunks::<4>();
    for &[number, left, right, letter] in records {
        let kind = index(number);
        let x = index(left);
        let y = index(right);
        let name = labels::folded(letter);
        let old = label[x];
        let new = label_with(kind == Kind::Label as usize, old, name);
        if second_label(old, new) {
            return None;
        }
        label[x] = new;
        rows[kind * 16 + x] |= tables::one(y);
        columns[kind * 16 + y] |= tables::one(x);
    }
    Some(put_together(&rows, &columns, label))
}
