// The figures that the report prints of a started run.
#![tactic(auto)]

ghost use Rattle.std.specs.Prelude.{◌≡◌};
ghost use Rattle.laws.specs.Answers.{answer_said};
ghost use Rattle.figures.specs.Figured.{Figurable, figures_of, found_of};

use reading::{Reading, read_refusal};
use rules::{Figures, Refusal};

// The figures of a reading and its ledger without 1: the sums and one closing, of the same run and amounts.
pub fn figures_on(reading: Reading, ledger: &[i64]) -> Figures
    requires { Figurable reading ledger.now }
    ensures { result ≡ figures_of reading ledger.now }
{
    let vehicle = reading.vehicle;
    let sums = judge::sums_of(reading.run, ledger);
    Figures {
        vehicle,
        end: sums.end,
        counted: sums.counted,
        cycles: sums.cycles,
        outside: sums.outside,
        passed: reading.passed,
        drawn: sums.drawn,
        closing: closing::close_on(reading.run, reading.amounts, ledger),
    }
}

// The figures of a reading. Its own numbers, its run, ledger, map and cycle are tested before all else, as by `read`.
pub fn figures_of(
    reading: Reading,
    cycle: &[u8],
    ledger: &[i64],
    map: &[u64],
) -> Result<Figures, Refusal>
    ensures { answer_said result ≡ found_of reading cycle.now ledger.now map.now }
{
    // Stays: no `?`, so that a wrong program can let a refusal by here, or give figures with it, and be refused for that alone.
    if let Err(refusal) = read_refusal(reading, cycle, ledger, map) {
        return Err(refusal);
    }
    Ok(figures_on(reading, ledger))
}
