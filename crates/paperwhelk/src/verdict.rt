// The bench controller's question about one sample, for C.
ghost use Rattle.std.specs.Prelude.{◌≡◌};
ghost use Rattle.rules.specs.Question.{question};

use rules::Tolerances;

// The greatest speed, as wide as the controller's numbers are.
const MOST_SPEED: u32 = rules::limits::MOST_SPEED as u32;

// The verdict, 0 inside, 1 below, 2 above, or minus a refusal.
pub fn paperwhelk_verdict(
    cycle: &[u8],
    speed_tol: u32,
    time_tol: u32,
    allowance: u32,
    position: u32,
    speed: u32,
) -> i32
    ensures { result ≡ question cycle.now (record { speed = speed_tol; time = time_tol; allowance = allowance }) position speed }
{
    let t = Tolerances {
        speed: speed_tol,
        time: time_tol,
        allowance,
    };
    if !cycle::is_cycle(cycle) {
        return -2;
    }
    if !values::is_tolerable(t) {
        return -3;
    }
    if 20 * cycle::seconds_of(cycle) <= position {
        return -6;
    }
    if MOST_SPEED < speed {
        return -5;
    }
    i32::from(window::verdict_at(cycle, t, position, speed))
}
