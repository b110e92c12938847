// 46, 45 and 47: the score by itself.
ghost use Rattle.std.specs.Prelude.{◌≡◌, [], ◌∷◌, ltb};
ghost use Rattle.refusal.specs.Rules.{rule, first_holding};
ghost use Rattle.refusal.specs.declared.Refusal.TheVariants.{StartOrder, EarlyKeyUp};
ghost use Rattle.ensemble_rules.specs.Rules.{order_rules, score_rules};

use ensemble_score::Entry;
use refusal::Refusal;

// 45 and 47 of an entry after one that starts at frame `before`.
fn entry_order(before: u32, e: Entry) -> Result<(), Refusal>
    ensures { result ≡ first_holding (rule StartOrder (ltb e.start before) ∷ rule EarlyKeyUp (ltb e.key_up e.start) ∷ []) }
{
    if e.start < before {
        return Err(Refusal::StartOrder);
    }
    if e.key_up < e.start {
        return Err(Refusal::EarlyKeyUp);
    }
    Ok(())
}

// The refusal of the first entry that is turned back so.
fn order_refusal(score: &[Entry]) -> Result<(), Refusal>
    ensures { result ≡ first_holding (order_rules 0 score.now) }
{
    let mut before: u32 = 0;
    for e in score {
        entry_order(before, *e)?;
        before = e.start;
    }
    Ok(())
}

// 46, 45 and 47.
pub fn score_refusal(score: &[Entry]) -> Result<(), Refusal>
    ensures { result ≡ first_holding (score_rules score.now) }
{
    if 16 < score.len() {
        return Err(Refusal::EntryCount);
    }
    order_refusal(score)
}
