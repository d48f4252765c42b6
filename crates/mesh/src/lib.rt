// Triangle lists of any mesh, ours or another maker's: whether each corner is one of its vertices. Nothing here knows of samples or of files.
#![tactic(auto)]

ghost use Rattle.std.specs.Prelude.{◌≡◌, ◌<◌};
ghost use Rattle.laws.specs.Bools.{Tells};
ghost use Rattle.laws.specs.Lists.{All};

// An entry of a triangle list as a number of a vertex.
pub fn index(x: u32) -> usize
    ensures { result ≡ x }
{
    x as usize
}

// Whether each index is below v, the number of vertices.
pub fn named(triangles: &[u32], v: usize) -> bool
    ensures { Tells (All (λ x. x < v) triangles.now) result }
{
    triangles.iter().all(|x| index(*x) < v)
}
