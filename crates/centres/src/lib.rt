// Centres draw choices from one session total. Their records lie in one lent list and are changed there.
#![tactic(auto)]

ghost use Rattle.std.specs.Prelude.{◌≡◌, ◌+◌, ◌-◌, ◌<◌, ◌≤◌, ◌^◌, max};
ghost use Rattle.meaning.specs.Centres.{list_after};
ghost use Rattle.theory.specs.Centres.{drawing};
ghost use Rattle.questions.specs.Number.{numbered};
ghost use Rattle.centres.specs.Plain.{claim, question_of};
ghost use Rattle.centres.specs.Answers.{answered, answer_of};

use meaning::Centre;
use questions::Question;

// How many records a list may have.
const MOST: usize = 8;

// The claims with one record's more. A record above its cap claims more than any total, so that the sum alone tells a sound list.
fn with_claim(claims: u64, guarantee: u32, cap: u32, drawn: u32) -> u64
    requires { claims < 2 ^ 63 }
    ensures sum { result ≡ claims + claim guarantee cap drawn }
    ensures small { result ≤ claims + 2 ^ 32 }
{
    let most = guarantee.max(drawn);
    if most <= cap {
        claims + most as u64
    } else {
        claims + 0x1_0000_0000
    }
}

// Whether a question refuses a draw, from the claims of all records and the record of the centre.
fn question(
    claims: u64,
    total: u32,
    guarantee: u32,
    cap: u32,
    drawn: u32,
    amount: u32,
) -> Result<(), Question>
    ensures { numbered result ≡ answered (question_of claims total guarantee cap drawn amount) }
{
    if (total as u64) < claims {
        return Err(Question::Centres);
    }
    if (cap as u64) < drawn as u64 + amount as u64 {
        return Err(Question::Cap);
    }
    // The claims hold the larger of the centre's own guarantee and amount drawn; without its undrawn guarantee they are what the others
    // may still claim and what this centre has drawn.
    let undrawn = guarantee.saturating_sub(drawn);
    if total as u64 + (undrawn as u64) < claims + amount as u64 {
        return Err(Question::Total);
    }
    Ok(())
}

// A draw: granted, with the amount added to what the centre has drawn, or refused, with nothing written.
pub fn draw(centres: &mut [Centre], total: u32, centre: usize, amount: u32) -> Result<(), Question>
    ensures { (numbered result ≡ answer_of (drawing total centres.old centre amount))
        × (centres.new ≡ list_after (drawing total centres.old centre amount) centres.old centre amount) }
{
    // A longer list is not looked at.
    if MOST < centres.len() {
        return Err(Question::Centres);
    }
    let mut claims: u64 = 0;
    for c in centres.iter() {
        claims = with_claim(claims, c.guarantee, c.cap, c.drawn);
    }
    let own = centres.get(centre).copied().ok_or(Question::Centres)?;
    question(claims, total, own.guarantee, own.cap, own.drawn, amount)?;
    centres[centre].drawn = own.drawn + amount;
    Ok(())
}
