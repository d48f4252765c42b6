// Reads a PLY file from standard input, or from the file that its one argument names, and writes it again, or prints `status=` and the number of the
// refusal: 9, 10, or 11 where its header is of our kind and it is longer than 131,072 bytes, for which this program has no room.
#![tactic(auto)]

// One byte more than is written again, so that a file that is too long is seen to be: `again_cut` says that its first bytes suffice.
fn main(rt: HostRuntime) {
    let mut space = [0u8; 131073];
    let Some(taken) = streams::read(&rt, b"usage: ply_again_main [FILE]\n", 1, &mut space) else {
        return;
    };
    let mut out = [0u8; 131072];
    let k = ply_again::again_text(&space[..taken.length], &mut out);
    streams::write(&rt, &out[..k]);
    streams::finish(&rt, taken.from);
}
