// The table of worked figures.
ghost use Rattle.std.specs.Result.{MatchResult};
ghost use Rattle.figures.specs.Computed.{Computed};
ghost use Rattle.figures.specs.Table.{Table};

use crate::filter_figures::choices_after;
use crate::pacer_figures::told_after;
use crate::rtt_figures::{Smoothing, after_two_samples};
use bbr::figures::{Worked as Windows, compute as aim, entry_offsets};
use new_reno::figures::{Worked as Halving, compute as halve};
use numbers::figures::{Worked, compute};
use refusals::Refusal;

#[derive(Clone, Copy)]
pub struct WorkedFigures {
    // A sample of 90 ms after one of 50 ms, with an ack delay of 10, of 40 and of 41 ms.
    pub delay_10: Smoothing,
    pub delay_40: Smoothing,
    pub delay_41: Smoothing,
    // Casts and cube roots.
    pub numbers: Worked,
    // The filter that took 5 in round 1, after 3 in round 11 and in round 12.
    pub round_11: (u64, u64, u64),
    pub round_12: (u64, u64, u64),
    // What the eleventh of a burst of datagrams is told.
    pub eleventh: Option<u64>,
    // NewReno's window after a loss, from 13,200 and from 4,000.
    pub halving: Halving,
    // BBR's target without a product, its window in recovery after a larger MTU, and bytes in excess.
    pub bbr: Windows,
    // Where the draws 0, 1 and 6 enter its cycle of gains.
    pub entry_offsets: (u8, u8, u8),
}

// Every worked figure, computed. The table holds of the definitions, and the code gives its numbers.
#[tactic(auto, using(crate::proofs::Pacers::eleventh))]
pub fn worked_figures() -> Result<WorkedFigures, Refusal>
    ensures stand { Table }
    ensures computed { MatchResult result Computed (λ _. ⊥) }
{
    Ok(WorkedFigures {
        delay_10: after_two_samples(10_000_000)?,
        delay_40: after_two_samples(40_000_000)?,
        delay_41: after_two_samples(41_000_000)?,
        numbers: compute(),
        round_11: choices_after(11),
        round_12: choices_after(12),
        eleventh: told_after(10)?,
        halving: halve()?,
        bbr: aim(),
        entry_offsets: entry_offsets(),
    })
}
