// Sharing: each variable takes what its group has. `share_rows` is pub only because crates are split.
#![tactic(auto)]

ghost use Rattle.std.specs.Prelude.{◌≡◌, ◌<◌, eqb};
ghost use Rattle.meaning.specs.Finite.{pick};
ghost use Rattle.sharing.specs.Shares.{Clashing, WithRows, WithGroup, share_at, stored, SharedOf};

use ids::Variables;

#[tactic(auto, using(crate::proofs::Taking::labels_clash))]
fn clashes(l: u8, m: u8) -> bool
    ensures { Clashing l m result }
{
    (l != 0) & (m != 0) & (l != m)
}

#[tactic(auto, unfolding(meaning::specs::Finite::pick))]
fn either_label(l: u8, m: u8) -> u8
    ensures { result ≡ pick (eqb l 0) m l }
{
    if l == 0 {
        return m;
    }
    l
}

// What a variable takes from its group.
#[derive(Clone, Copy, Default)]
pub struct Share {
    pub child: u16,
    pub parent: u16,
    pub differ: u16,
    pub label: u8,
}

impl Share {
    // With all that one of the group has.
    fn with_rows(self, of: Share) -> Share
        ensures { WithRows self of.child of.parent of.differ of.label result }
    {
        Share {
            child: self.child | of.child,
            parent: self.parent | of.parent,
            differ: self.differ | of.differ,
            label: either_label(self.label, of.label),
        }
    }

    // With a group that differs, and may be of children or of parents.
    fn with_group(self, child: bool, parent: bool, group: u16) -> Share
        ensures { WithGroup self child parent group result }
    {
        Share {
            child: tables::gain(child, self.child, group),
            parent: tables::gain(parent, self.parent, group),
            differ: self.differ | group,
            label: self.label,
        }
    }
}

// The tables that a group shares, a row for each variable.
#[derive(Clone, Copy)]
pub struct Shares {
    pub child: [u16; 16],
    pub parent: [u16; 16],
    pub differ: [u16; 16],
    pub label: [u8; 16],
}

impl Shares {
    // What x has.
    fn row(&self, x: usize) -> Share
        requires { x < 16 }
        ensures { result ≡ share_at self.now x }
    {
        Share {
            child: self.child[x],
            parent: self.parent[x],
            differ: self.differ[x],
            label: self.label[x],
        }
    }

    // Now x has s.
    fn set(&mut self, x: usize, s: Share)
        requires { x < 16 }
        ensures { self.new ≡ stored self.old x s }
    {
        self.child[x] = s.child;
        self.parent[x] = s.parent;
        self.differ[x] = s.differ;
        self.label[x] = s.label;
    }
}

// The loops of a pass: x takes what each y of its group has: its label, and its child, parent and differ with the group of z, for each z
// that y has. None where they clash.
#[tactic(auto, using(crate::proofs::Passing::shared_rows))]
pub fn share_rows(t: Shares, same: [u16; 16], several: u16, n: Variables) -> Option<Shares>
    ensures { SharedOf n.count t same several result }
{
    let mut shares = t;
    'pass: {
        for x in 0..n.count {
            let visits = several | tables::one(x);
            let mut s = Share::default();
            let mut ys = same[x];
            while ys != 0 {
                let y = tables::lowest(ys);
                let of = t.row(y);
                if clashes(s.label, of.label) {
                    break 'pass None;
                }
                s = s.with_rows(of);
                let mut zs = of.differ & visits;
                while zs != 0 {
                    let z = tables::lowest(zs);
                    let group = same[z];
                    if rowbits::has(group, x) {
                        break 'pass None;
                    }
                    s = s.with_group(rowbits::has(of.child, z), rowbits::has(of.parent, z), group);
                    zs = tables::rest(zs);
                }
                ys = tables::rest(ys);
            }
            shares.set(x, s);
        }
        Some(shares)
    }
}
