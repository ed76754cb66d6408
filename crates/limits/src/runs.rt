// Runs of finished cycles.
use rules::{End, Method, Moment, Stretches, Tolerances};
use state::{Ends, Progress, Run, Stretch, Stretched, Track};

// So many samples (100, 6000, -120), which all count.
fn open_at(counted: u32) -> Progress {
    Progress {
        offered: counted,
        counted,
        end: End::None,
        held: Moment {
            speed: 100,
            energy: 720_000,
        },
    }
}

// "only once the sample after its last position is taken": 40 n + 1 samples finish n cycles; of 64 cycles that sample is the limit.
fn progress_of(n: u32) -> Progress {
    if n < 64 {
        return open_at(40 * n + 1);
    }
    Progress {
        offered: 2561,
        counted: 2560,
        end: End::Limit,
        held: Moment {
            speed: 0,
            energy: 0,
        },
    }
}

fn track_of(method: Method) -> Track {
    Track {
        seconds: 2,
        ends: Ends {
            first: 2,
            second: 0,
            third: 0,
            fourth: 0,
        },
        tolerances: Tolerances {
            speed: 30,
            time: 20,
            allowance: 300,
        },
        method,
    }
}

// The stretches with these energies.
fn with_energies(in_m: i64, in_e: i64) -> Stretched {
    Stretched {
        in_m: Stretch {
            energy: in_m,
            distance: 0,
        },
        in_e: Stretch {
            energy: in_e,
            distance: 0,
        },
        watch: 0,
    }
}

// A run of n finished cycles.
pub fn finished(n: u32) -> Run {
    Run {
        track: track_of(Method::Regular),
        progress: progress_of(n),
        stretched: with_energies(0, 0),
    }
}

// A shortened run, with M of 10 samples, to which so many were offered: 131 finish three cycles, 172 four, and close one interval of E.
pub fn shortened(offered: u32, in_m: i64, in_e: i64) -> Run {
    Run {
        track: track_of(Method::Shortened(Stretches {
            length: 10,
            speed: 140,
        })),
        progress: open_at(offered),
        stretched: with_energies(in_m, in_e),
    }
}
