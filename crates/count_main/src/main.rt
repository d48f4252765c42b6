// The count program: reads a count file from standard input, or from the file that its one argument names, and prints the answer.
// The number that it prints is 0, 1, 2 (a side of 33 to 216), 4, 8 or 14: no input brings about another.
#![tactic(auto)]

fn main(rt: HostRuntime) {
    let mut space = [0u8; count_file::ENOUGH];
    let Some(taken) = streams::read(&rt, b"usage: count_main [FILE]\n", 1, &mut space) else {
        return;
    };
    let mut out = [0u8; count::ROOM];
    let k = count::count_text(&space[..taken.length], &mut out);
    streams::write(&rt, &out[..k]);
    streams::finish(&rt, taken.from);
}
