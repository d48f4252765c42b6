// The bytes of ply_again_main: a PLY file that is read and written again.
#![tactic(auto)]

ghost use Rattle.ply_again.specs.Again.{AgainOf};

use ply::Refusal;

// The file that is read, written again at the front of `out`, or the line `status=` with the number of the refusal: 9, 10, or 11 where its header is of the
// kind and it is longer than `out`. What is returned is its length; the rest of `out` stays as it was.
pub fn again_text(file: &[u8], out: &mut [u8; 131072]) -> usize
    ensures { AgainOf 131072 file.now out.old out.new result }
{
    let sizes = ply::sizes(file);
    if sizes == Err(Refusal::NoHeader) {
        return lines::put_status(out, 0, 9);
    }
    if 131072 < file.len() {
        return lines::put_status(out, 0, 11);
    }
    if sizes.is_err() {
        return lines::put_status(out, 0, 10);
    }
    let mut words = [0u64; 16384];
    let mut triangles = [0u32; 32768];
    let counts = ply::read(file, &mut words, &mut triangles).unwrap();
    let n = counts.vertices * 3;
    let m = counts.faces * 3;
    ply_write::write(&words[..n], &triangles[..m], out).unwrap()
}
