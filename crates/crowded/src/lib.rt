// Flags behind the flags of the sides: which vertices are ends of a side that is crowded, and which sites own a live cluster vertex in a triangle with such a side.
// The list that is lent to be filled stays a parameter, with what is asked of it: of a field behind a `&mut` that is lent as a `&` no fact says what it holds afterwards.
#![tactic(auto)]

ghost use Rattle.std.specs.Prelude.{◌≡◌, false, ◌+◌, ◌*◌, ◌/◌, ◌<◌, ltb, length, get_or};
ghost use Rattle.laws.specs.Ranges.{any, fold};
ghost use Rattle.pairs.specs.Sides.{crowded};
ghost use Rattle.crowded.specs.Inner.Flags.{Flaggable, EndsFit, EndsUnder, OwnersFit, OwnersUnder, fitting, side_flags, with_flags, EndsFlagged, OwnersFlagged};
ghost use Rattle.crowded.specs.Inner.Turns.{Ready, mark, end_turn, flagged, wanted, owner_turn};

// The flags of the sides in front, and zeros for m flags from a on, if they have room. The sort may count in v words, if it has so many.
fn prepare(tris: &[u32], room: &mut [u32], a: usize, m: usize, v: usize)
    requires { Flaggable tris.now room.old a }
    ensures { room.new ≡ with_flags (side_flags tris.now v room.old) a (fitting m a room.old) (λ _. false) }
{
    let w = tris.len() * 3;
    let u = w + v.min(room.len() - w);
    pairs::over_sides(tris, &mut room[..u]);
    let b = a + m.min(room.len() - a);
    sort::clear(&mut room[a..b]);
}

// ---- ends

// Side k: where it is crowded, both its ends get their flags; whether it is.
fn flag_side(tris: &[u32], room: &mut [u32], a: usize, k: usize) -> bool
    requires { Ready tris.now room.old a × EndsFit tris.now room.old a × (k < length tris.now) }
    ensures value { result ≡ crowded tris.now k }
    ensures room_after { room.new ≡ end_turn tris.now a k room.old }
{
    if room[k] == 1 {
        let n = pairs::next_corner(k);
        let u = a + tris[k] as usize;
        let v = a + tris[n] as usize;
        room[u] = 1;
        room[v] = 1;
        return true;
    }
    false
}

// All sides; whether any is crowded.
fn flag_sides(tris: &[u32], room: &mut [u32], a: usize) -> bool
    requires { Ready tris.now room.old a × EndsFit tris.now room.old a }
    ensures value { result ≡ any (length tris.now) (crowded tris.now) }
    ensures room_after { room.new ≡ fold (end_turn tris.now a) (length tris.now) room.old }
{
    let mut found = false;
    for k in 0..tris.len() {
        found |= flag_side(tris, room, a, k);
    }
    found
}

// Which of m vertices are ends of a side that is crowded; whether any side is.
pub fn flag_ends(tris: &[u32], room: &mut [u32], a: usize, m: usize) -> bool
    requires { Flaggable tris.now room.old a × EndsFit tris.now room.old a × EndsUnder tris.now m }
    ensures { EndsFlagged tris.now a m room.old room.new result }
{
    prepare(tris, room, a, m, m);
    let b = a + m.min(room.len() - a);
    flag_sides(tris, &mut room[..b], a)
}

// ---- owners

// Whether the triangle of corner k has a side with flag 1.
fn in_crowded(room: &[u32], k: usize) -> bool
    requires { (k / 3 * 3 + 2 < length room.now) × (k / 3 * 3 + 2 < 4294967296) }
    ensures { result ≡ flagged room.now k }
{
    let n = pairs::next_corner(k);
    let m = pairs::next_corner(n);
    room[k] == 1 || room[n] == 1 || room[m] == 1
}

// Vertex v: where it is a live cluster vertex, its site gets its flag; whether it is.
fn flag_owner(book: &[u32], room: &mut [u32], a: usize, v: usize) -> bool
    requires { (4 * v + 3 < length book.now) × (a + get_or book.now (4 * v) 0 < length room.old) }
    ensures value { result ≡ ltb 1 (get_or book.now (4 * v + 1) 0) }
    ensures room_after { room.new ≡ mark a (ltb 1 (get_or book.now (4 * v + 1) 0)) (get_or book.now (4 * v) 0) room.old }
{
    let w = 4 * v;
    if 1 < book[w + 1] {
        let u = a + book[w] as usize;
        room[u] = 1;
        return true;
    }
    false
}

// Corner k: where its triangle has a side that is crowded, its vertex's site may get its flag; whether it does.
fn flag_corner(tris: &[u32], book: &[u32], room: &mut [u32], a: usize, k: usize) -> bool
    requires { Ready tris.now room.old a × OwnersFit tris.now book.now room.old a × (k < length tris.now) }
    ensures value { result ≡ wanted tris.now book.now k }
    ensures room_after { room.new ≡ owner_turn tris.now book.now a k room.old }
{
    if in_crowded(room, k) {
        let v = tris[k] as usize;
        return flag_owner(book, room, a, v);
    }
    false
}

// All corners; whether any site gets its flag.
fn flag_corners(tris: &[u32], book: &[u32], room: &mut [u32], a: usize) -> bool
    requires { Ready tris.now room.old a × OwnersFit tris.now book.now room.old a }
    ensures value { result ≡ any (length tris.now) (wanted tris.now book.now) }
    ensures room_after { room.new ≡ fold (owner_turn tris.now book.now a) (length tris.now) room.old }
{
    let mut found = false;
    for k in 0..tris.len() {
        found |= flag_corner(tris, book, room, a, k);
    }
    found
}

// Which of m sites own a live cluster vertex in a triangle with a side that is crowded; whether any does. There are v vertices.
pub fn flag_owners(
    tris: &[u32],
    book: &[u32],
    room: &mut [u32],
    a: usize,
    m: usize,
    v: usize,
) -> bool
    requires { Flaggable tris.now room.old a × OwnersFit tris.now book.now room.old a × OwnersUnder tris.now book.now m }
    ensures { OwnersFlagged tris.now book.now a m v room.old room.new result }
{
    prepare(tris, room, a, m, v);
    let b = a + m.min(room.len() - a);
    flag_corners(tris, book, &mut room[..b], a)
}
