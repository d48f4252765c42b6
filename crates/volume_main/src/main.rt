// The volume program: `volume_main DIGITS X Y Z [FILE]`. Reads a count file from standard input, or from the file that its fifth argument names, and prints six
// times the volume of its surface in whole units, 10 to the power of DIGITS to one of the frame, taken from the whole origin (X, Y, Z), and the volume in decimal;
// or the line `status=` with the count program's number, or 13 where a corner is too far from the origin.
#![tactic(auto)]

use std::env::Env;
use volume_file::Words;

fn usage(rt: &HostRuntime) {
    streams::say(rt, b"usage: volume_main DIGITS X Y Z [FILE]\n");
}

// The four words. One that is missing or too long is read as an empty one, which is no number.
fn words(rt: &impl Env) -> Option<Words> {
    let mut digits = [0u8; 32];
    let d = rt.arg(1, &mut digits).unwrap_or(0);
    let mut x = [0u8; 32];
    let a = rt.arg(2, &mut x).unwrap_or(0);
    let mut y = [0u8; 32];
    let b = rt.arg(3, &mut y).unwrap_or(0);
    let mut z = [0u8; 32];
    let c = rt.arg(4, &mut z).unwrap_or(0);
    volume_file::read_words(&digits[..d], &x[..a], &y[..b], &z[..c])
}

fn answer(rt: &HostRuntime, asked: Words) {
    let mut space = [0u8; count_file::ENOUGH];
    let Some(taken) = streams::read(
        rt,
        b"usage: volume_main DIGITS X Y Z [FILE]\n",
        5,
        &mut space,
    ) else {
        return;
    };
    let mut out = [0u8; 161];
    let k = volume_file::volume_text(&space[..taken.length], asked.digits, asked.origin, &mut out);
    streams::write(rt, &out[..k]);
    streams::finish(rt, taken.from);
}

fn main(rt: HostRuntime) {
    let Some(asked) = words(&rt) else {
        usage(&rt);
        return;
    };
    answer(&rt, asked);
}
