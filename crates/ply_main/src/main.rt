// Reads a count file from standard input, or from the file that its one argument names, and writes the PLY file of its mesh, or prints the line `status=`
// where the count program would refuse.
#![tactic(auto)]

fn main(rt: HostRuntime) {
    let mut space = [0u8; count_file::ENOUGH];
    let Some(taken) = streams::read(&rt, b"usage: ply_main [FILE]\n", 1, &mut space) else {
        return;
    };
    let mut out = [0u8; 88316];
    let k = ply_file::ply_text(&space[..taken.length], &mut out);
    streams::write(&rt, &out[..k]);
    streams::finish(&rt, taken.from);
}
