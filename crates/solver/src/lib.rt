// The solver: the questions, the given facts settled, the fixed search under an allowance, and the tree read off into the lent buffer.
#![tactic(auto)]

ghost use Rattle.std.specs.Prelude.{◌≡◌, ◌≤◌, length};
ghost use Rattle.meaning.specs.Constraint.{facts_of};
ghost use Rattle.theory.specs.Solve.{solve};
ghost use Rattle.constraints.specs.Judgement.{constraints_in};
ghost use Rattle.search.specs.Searching.{Line, Report};
ghost use Rattle.solver.specs.Solving.{Covers, decided_as, SolverOf, AnswerOf};

use ids::Variables;
use questions::Question;
use search::{End, Searched};
use tables::Facts;

#[derive(Clone, Copy)]
pub enum Verdict {
    // How many bytes were written at the front of the buffer, and the count of choices.
    Tree { bytes: usize, count: u32 },
    None { count: u32 },
    Spent { count: u32 },
    // The first question that is answered no.
    Refused(Question),
}

// The verdict and the count alone.
#[derive(Clone, Copy)]
pub enum Decided {
    Tree { count: u32 },
    None { count: u32 },
    Spent { count: u32 },
}

// The line that the search starts from: the settled set of the given facts.
fn first_line(constraints: &[u8], n: Variables) -> Option<Facts>
    requires { Covers n.count constraints.now }
    ensures { Line n.count (facts_of (constraints_in constraints.now)) result }
{
    let facts = seed::seed(constraints)?;
    settle::settle(facts, n)
}

fn search_over(constraints: &[u8], n: Variables, allowance: u32) -> Searched
    requires { Covers n.count constraints.now }
    ensures { Report allowance n.count 0 (facts_of (constraints_in constraints.now)) result }
{
    let first = first_line(constraints, n);
    search::search(first, n, allowance, 0)
}

// Decides the records of an accepted file over n variables, as many as they name or more. `Covers` stays a clause:
// any such n may be given.
pub fn decide(constraints: &[u8], n: usize, allowance: u32) -> Decided
    requires { Covers n constraints.now }
    ensures { result ≡ decided_as (solve allowance n (constraints_in constraints.now)) }
{
    let Searched { count, end } = search_over(constraints, Variables { count: n }, allowance);
    match end {
        End::Tree(_) => Decided::Tree { count },
        End::None => Decided::None { count },
        End::Spent => Decided::Spent { count },
    }
}

// Decides them, and writes a tree into the buffer.
pub fn solve_over(constraints: &[u8], n: usize, answer: &mut [u8], allowance: u32) -> Verdict
    requires { Covers n constraints.now × (136 ≤ length answer.old) }
    ensures { AnswerOf (solve allowance n (constraints_in constraints.now)) result answer.old answer.new }
{
    let n = Variables { count: n };
    let Searched { count, end } = search_over(constraints, n, allowance);
    match end {
        End::Tree(s) => {
            let bytes = readoff::read_off(s.below, s.above, s.after, s.label, s.root, n, answer);
            Verdict::Tree { bytes, count }
        }
        End::None => Verdict::None { count },
        End::Spent => Verdict::Spent { count },
    }
}

// Solves any bytes as a constraint file, with any buffer and any allowance.
pub fn solve(constraints: &[u8], answer: &mut [u8], allowance: u32) -> Verdict
    ensures { SolverOf allowance constraints.now answer.old result answer.new }
{
    match constraints::judge(constraints) {
        Ok(n) => {
            if answer.len() < 136 {
                return Verdict::Refused(Question::Buffer);
            }
            solve_over(constraints, n, answer, allowance)
        }
        Err(question) => Verdict::Refused(question),
    }
}
