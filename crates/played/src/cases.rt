// The runs that are played, in the order of `played.py`: samples (100, 6000, -120), and fast ones (131, 6000, -240).
use crate::shortened::shortened_case;
use rules::{Method, Sample, Stretches};

// The bytes of a sample, and of a fast one.
const GOOD: [u8; 6] = [0, 100, 23, 112, 255, 136];

const FAST: [u8; 6] = [0, 131, 23, 112, 255, 16];

// A run to play: speed tolerance and allowance, the samples offered, those of them that are fast, with one more but for 0, M's length and E's set speed, both 0
// by the regular method, and two positions to ask for.
#[derive(Clone, Copy)]
pub struct Case {
    pub speed: u32,
    pub allowance: u32,
    pub offered: u32,
    pub from: u32,
    pub upto: u32,
    pub again: u32,
    pub length: u32,
    pub set: u32,
    pub first: usize,
    pub second: usize,
}

// Every sample is fast.
fn all_fast(speed: u32, allowance: u32, offered: u32, first: usize, second: usize) -> Case {
    Case {
        speed,
        allowance,
        offered,
        from: 0,
        upto: offered,
        again: 0,
        length: 0,
        set: 0,
        first,
        second,
    }
}

// The same with other fast samples.
fn fast_in(c: Case, from: u32, upto: u32) -> Case {
    let mut d = c;
    d.from = from;
    d.upto = upto;
    d
}

// Samples 19 and 20 are on either side of the joint of two phases, samples 39 and 40 of two cycles; sample 2560 is the one after cycle 64.
fn regular_case(k: u32) -> Case {
    match k {
        0 => all_fast(30, 3, 10, 3, 4),
        1 => all_fast(30, 5, 10, 5, 6),
        2 => all_fast(31, 3, 10, 0, 9),
        3 => all_fast(30, 39, 50, 39, 40),
        4 => all_fast(30, 40, 50, 9, 10),
        5 => all_fast(30, 40, 45, 4, 5),
        6 => fast_in(all_fast(30, 1, 80, 0, 39), 39, 41),
        7 => all_fast(30, 40, 2565, 39, 40),
        8 => all_fast(30, 3, 0, 0, 39),
        9 => all_fast(30, 3, 1, 0, 1),
        10 => fast_in(all_fast(30, 0, 10, 0, 1), 0, 1),
        11 => fast_in(all_fast(30, 0, 50, 0, 39), 40, 41),
        12 => fast_in(all_fast(30, 0, 50, 0, 39), 39, 40),
        13 => fast_in(all_fast(30, 0, 50, 19, 20), 20, 21),
        14 => fast_in(all_fast(31, 0, 80, 20, 39), 20, 40),
        15 => fast_in(all_fast(31, 0, 81, 20, 39), 20, 40),
        16 => all_fast(30, 40, 2560, 39, 40),
        _ => fast_in(all_fast(30, 0, 2561, 0, 39), 2560, 2561),
    }
}

pub fn case_of(k: u32) -> Case {
    if k < 18 {
        return regular_case(k);
    }
    shortened_case(k - 18)
}

// The method of a run.
pub fn method_of(c: Case) -> Method {
    if c.length == 0 {
        return Method::Regular;
    }
    Method::Shortened(Stretches {
        length: c.length,
        speed: c.set,
    })
}

// One sample more is fast.
fn is_again(c: Case, i: u64) -> bool {
    if c.again == 0 {
        return false;
    }
    i == c.again as u64
}

fn is_fast(c: Case, i: u64) -> bool {
    if is_again(c, i) {
        return true;
    }
    if i < c.from as u64 {
        return false;
    }
    i < c.upto as u64
}

// Sample i of a run.
pub fn sample_at(c: Case, i: u64) -> Sample {
    if is_fast(c, i) {
        return Sample {
            speed: 131,
            voltage: 6000,
            current: -240,
        };
    }
    Sample {
        speed: 100,
        voltage: 6000,
        current: -120,
    }
}

// Byte i of a block that begins at sample first.
pub fn byte_at(c: Case, first: u32, i: usize) -> u8 {
    let k = i % 6;
    if is_fast(c, first as u64 + (i / 6) as u64) {
        return FAST[k];
    }
    GOOD[k]
}
