// The bytes of ply_main: the PLY file of the mesh that a count file asks for.
#![tactic(auto)]

ghost use Rattle.ply_file.specs.Text.{DrawnAt};

use file_build::WorkSpace;

// The PLY file for `input`, put at the front of `out`, or the line `status=` where the count program would refuse; what is returned is its length.
// The rest of `out` stays as it was. All vertices ever made are written, retired ones too.
pub fn ply_text(input: &[u8], out: &mut [u8; 88316]) -> usize
    ensures { DrawnAt input.now out.old out.new result }
{
    let mut space = WorkSpace::new();
    let built = space.build(input);
    let answer = built.answer;
    let status = answer.status;
    if status != 0 {
        return lines::put_status(out, 0, status as u64);
    }
    let v = answer.vertices * 3;
    let t = answer.triangles * 3;
    ply_write::write_mesh(&space.positions[..v], &space.triangles[..t], out).unwrap()
}
