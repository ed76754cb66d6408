// The shortened runs that are played, in the order of `played.py`. Where nothing else is said M has 10 samples: cycles 1 and 2 have samples 0 to 79, M 80
// to 89, cycles 3 and 4 90 to 169, E those behind. The set speed is 131: a fast sample has reached it, and with a tolerance of 30 another one is below.
use crate::cases::Case;

// With an allowance, so many samples offered, and these fast.
fn fast_in(allowance: u32, offered: u32, from: u32, upto: u32) -> Case {
    Case {
        speed: 30,
        allowance,
        offered,
        from,
        upto,
        again: 0,
        length: 10,
        set: 131,
        first: 0,
        second: 39,
    }
}

// No sample is fast.
fn none_fast(offered: u32) -> Case {
    fast_in(0, offered, 0, 0)
}

// Sample 170, the first of E, is fast.
fn reached(offered: u32) -> Case {
    fast_in(0, offered, 170, 171)
}

// With one fast sample more.
fn and_fast(c: Case, again: u32) -> Case {
    let mut d = c;
    d.again = again;
    d
}

// With other positions to ask for.
fn asking(c: Case, first: usize, second: usize) -> Case {
    let mut d = c;
    d.first = first;
    d.second = second;
    d
}

// With an M of one sample.
fn short_m(c: Case) -> Case {
    let mut d = c;
    d.length = 1;
    d
}

// With another set speed.
fn set_to(c: Case, set: u32) -> Case {
    let mut d = c;
    d.set = set;
    d
}

// With a speed tolerance of 31, in which a sample that is not fast is not below.
fn wider(c: Case) -> Case {
    let mut d = c;
    d.speed = 31;
    d
}

// Runs that end in a cycle or in M.
fn early(k: u32) -> Case {
    match k {
        0 => none_fast(85),
        1 => asking(fast_in(2, 86, 78, 84), 38, 0),
        2 => asking(fast_in(2, 90, 78, 84), 38, 0),
        3 => asking(fast_in(2, 91, 78, 84), 38, 0),
        4 => asking(fast_in(0, 50, 5, 6), 5, 6),
        5 => asking(fast_in(0, 50, 45, 46), 5, 39),
        6 => asking(fast_in(0, 100, 95, 96), 5, 15),
        7 => asking(fast_in(0, 160, 155, 156), 25, 35),
        8 => fast_in(0, 95, 90, 91),
        9 => asking(fast_in(0, 175, 169, 170), 39, 0),
        10 => short_m(fast_in(0, 83, 80, 81)),
        11 => short_m(fast_in(0, 83, 80, 82)),
        _ => none_fast(170),
    }
}

// Runs that end in E: samples 171 to 249 are 79, and sample 250 is the 80th.
fn late(k: u32) -> Case {
    match k {
        0 => none_fast(171),
        1 => reached(171),
        2 => reached(250),
        3 => reached(251),
        4 => and_fast(reached(260), 255),
        5 => and_fast(reached(330), 250),
        6 => and_fast(reached(331), 250),
        7 => set_to(fast_in(0, 300, 170, 180), 132),
        8 => wider(reached(300)),
        9 => set_to(none_fast(300), 30),
        10 => asking(and_fast(fast_in(1, 300, 80, 90), 150), 20, 0),
        11 => asking(fast_in(2, 180, 168, 175), 38, 0),
        12 => fast_in(0, 300, 220, 221),
        13 => fast_in(0, 301, 220, 221),
        _ => set_to(none_fast(2600), 132),
    }
}

pub fn shortened_case(k: u32) -> Case {
    if k < 13 {
        return early(k);
    }
    late(k - 13)
}
