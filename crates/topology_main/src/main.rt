// Prints the case and the clusters of every 61st mask, and the edges that the walks took, with samples at the ends that a fixed generator makes.
// The generator goes through all masks and ends in order, so that the lines are those of a run over all masks.
#![tactic(auto)]

use std::io;

const SEED: u64 = 1;

const STEP: u16 = 61;

// x times 6364136223846793005, and 1442695040888963407, modulo 2^64.
fn next(x: u64) -> u64 {
    x.wrapping_mul(6364136223846793005)
        .wrapping_add(1442695040888963407)
}

// What the generator's top five bits stand for.
fn sample(top: u64) -> Option<f64> {
    match top {
        0 | 6 | 14 | 27 => Some(1.0),
        1 | 7 | 15 => Some(-1.0),
        2 | 8 | 16 => Some(3.0),
        3 | 9 | 17 => Some(-3.0),
        4 | 10 | 18 => Some(0.5),
        5 | 11 | 19 => Some(-0.5),
        12 => Some(2.0),
        13 => Some(-2.0),
        20 => Some(0.0),
        21 => Some(-0.0),
        22 => Some(-1.0e-9),
        23 => Some(-1.0000000000000003e-9),
        24 => Some(5.0e-324),
        25 => Some(1.0e308),
        26 => Some(-1.0e308),
        28 => Some(0.0 / 0.0),
        29 => Some(1.0 / 0.0),
        30 => Some(-1.0 / 0.0),
        _ => None,
    }
}

// The samples at the fourteen ends; the generator's state goes from the one before the first of them to the one after the last.
fn samples(state: &mut u64) -> [Option<f64>; 14] {
    let mut ends = [None; 14];
    for end in ends.iter_mut() {
        *state = next(*state);
        *end = sample(*state / 0x800000000000000);
    }
    ends
}

// The generator's state goes on as far, and no sample is made.
fn skip(state: &mut u64) {
    for _ in 0..14usize {
        *state = next(*state);
    }
}

fn show(rt: &impl Print, mask: u16, ends: [Option<f64>; 14]) -> io::Result<()> {
    let r = topology::test_topology(mask, true, ends, samples::INSIDE);
    let case = r.case;
    let clusters = r.clusters;
    let visits = r.visits;
    let count = clusters.count;
    let masks = clusters.masks;
    print!(rt; "{mask:04x} {} {count}", topology::case_number(case))?;
    streams::mask_words(rt, count, masks)?;
    println!(rt; " {visits}")
}

fn main(rt: HostRuntime) -> io::Result<()> {
    let mut state = SEED;
    for mask in 0..16384u16 {
        if mask % STEP == 0 {
            let ends = samples(&mut state);
            show(&rt, mask, ends)?;
        } else {
            skip(&mut state);
        }
    }
    Ok(())
}
