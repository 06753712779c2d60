//! What an expansion costs.
ghost use Rattle.std.specs.Prelude.{◌≡◌, ◌+◌, ◌-◌, ◌^◌, min, length, nat_lt, is_err, IfErr};
ghost use Rattle.wt_span.specs.Items.{items, sources};
ghost use Rattle.wt_transclusion.specs.declared.refusal.ExpandRefusal.TheVariants as answers;
ghost use Rattle.wt_expand.specs.Work.{most_cost};

use crate::refusal::ExpandRefusal;
use wt_expand::MOST_COST;
use wt_span::Piece;

/// How many bytes pieces have.
pub fn byte_count(pieces: &[Piece<'_>]) -> u64
    ensures { result ≡ min (length (sources (items pieces.now))) (2 ^ 64 - 1) }
{
    let mut count: u64 = 0;
    for piece in pieces {
        count = count.saturating_add(piece.text.as_str().len() as u64);
    }
    count
}

/// Spends so much more.
#[tactic(auto, unfolding(wt_expand::specs::Work::most_cost))]
pub fn charge(spent: &mut u64, cost: u64) -> Result<(), ExpandRefusal>
    ensures spent { spent.new ≡ min (spent.old + cost) (2 ^ 64 - 1) }
    ensures large { is_err result ≡ nat_lt most_cost (spent.old + cost) }
    ensures refusal { IfErr result (λ e. e ≡ answers.TooLarge) }
{
    *spent = spent.saturating_add(cost);
    if *spent > MOST_COST {
        return Err(ExpandRefusal::TooLarge);
    }
    Ok(())
}
