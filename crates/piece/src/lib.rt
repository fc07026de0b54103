// The six pieces of a cube, and the triangles in a piece for each case of which of its points are inside: constants, read by an index.
#![tactic(auto)]

ghost use Rattle.std.specs.Prelude.{◌≡◌, length, map};
ghost use Rattle.piece.specs.Table.{point_of, triangles_in, as_edge, corner_of, corners_of, CutByTable};

// A corner of a triangle in a piece, by the names of the two ends of its edge.
#[derive(Clone, Copy, PartialEq, Eq, Debug)]
pub struct Pair {
    pub inside: u8,
    pub outside: u8,
}

// The point of a name (0 to 3) in a piece (0 to 5), by its number in the cube. Pieces are counted round, and so are names.
pub fn point_of(piece: usize, name: usize) -> u8
    ensures value { result ≡ point_of piece name }
{
    PIECES[piece % 6][name % 4]
}

// How many triangles a piece has. Bit i of the case is set if the point of name i is inside; its other bits say nothing.
pub fn triangle_count(case: u8) -> usize
    ensures value { result ≡ length (triangles_in case) }
{
    triangles_of(case).len()
}

// A corner (0 to 2) of a triangle (0 or 1) of a piece. Triangles are counted round, and so are corners; of a triangle that the piece does
// not have, each corner has the name 0 twice.
pub fn corner_of(case: u8, triangle: usize, corner: usize) -> Pair
    ensures value { as_edge result ≡ corner_of case triangle corner }
{
    let (inside, outside) = triangles_of(case)
        .get(triangle % 2)
        .map_or((0, 0), |corners| corners[corner % 3]);
    Pair { inside, outside }
}

// The triangles of a case, each by the two names of each of its corners.
fn triangles_of(case: u8) -> &'static [[(u8, u8); 3]]
    ensures value { result.now ≡ map corners_of (triangles_in case) }
{
    CASES[(case & 15) as usize]
}

// What the three give together are the triangles of each piece of each cube.
pub fn pieces_are_cut_by_the_table() -> u8
    ensures { CutByTable }
{
    0
}

// The points of a cube have numbers of 0 to 7: bit 0 is one step along x from the lowest point, bit 1 along y, bit 2 along z. On the right
// the cube as it is seen from 7, with 0 behind it: each of the six triangles is a piece, which goes from 0 to 7 by one step along each axis,
// in the order that stands in it.
//
//          6 --------- 7                          2 ----------- 3
//         /|          /|                         / \           / \
//        / |         / |                        /   \  y x z  /   \
//       4 --------- 5  |      z                / yzx \       / xyz \
//       |  |        |  |      |  y            /       \     /       \
//       |  2 -------|- 3      | /            6 -------- 7 0 -------- 1
//       | /         | /       |/              \       /     \       /
//       |/          |/        +---- x          \ zyx /       \ xzy /
//       0 --------- 1                           \   /  z x y  \   /
//                                                \ /           \ /
//                                                 4 ----------- 5
//
// The points of a piece are named 0 to 3 along its way, but with 2 and 3 exchanged in the second, third and sixth piece: each piece then
// stands as the origin and one step along each axis do.
pub const PIECES: [[u8; 4]; 6] = [
    // x y z
    [0, 1, 3, 7],
    // x z y
    [0, 1, 7, 5],
    // y x z
    [0, 2, 7, 3],
    // y z x
    [0, 2, 6, 7],
    // z x y
    [0, 4, 5, 7],
    // z y x
    [0, 4, 7, 6],
];

// The triangles of a piece, by the case: who is inside stands above each. Seen from outside, corners run against the clock. Where two points
// are inside the skin is a quadrilateral, which is cut along the diagonal from the first corner. The corner (0, 2) is on the edge from the
// inside point 0 to the outside point 2, and so on.
static CASES: [&[[(u8, u8); 3]]; 16] = [
    // none
    &[],
    // 0
    &[[(0, 1), (0, 2), (0, 3)]],
    // 1
    &[[(1, 0), (1, 3), (1, 2)]],
    // 0 1
    &[[(0, 2), (0, 3), (1, 3)], [(0, 2), (1, 3), (1, 2)]],
    // 2
    &[[(2, 0), (2, 1), (2, 3)]],
    // 0 2
    &[[(0, 1), (2, 3), (0, 3)], [(0, 1), (2, 1), (2, 3)]],
    // 1 2
    &[[(1, 0), (1, 3), (2, 3)], [(1, 0), (2, 3), (2, 0)]],
    // 0 1 2
    &[[(0, 3), (1, 3), (2, 3)]],
    // 3
    &[[(3, 0), (3, 2), (3, 1)]],
    // 0 3
    &[[(0, 1), (0, 2), (3, 2)], [(0, 1), (3, 2), (3, 1)]],
    // 1 3
    &[[(1, 0), (3, 2), (1, 2)], [(1, 0), (3, 0), (3, 2)]],
    // 0 1 3
    &[[(0, 2), (3, 2), (1, 2)]],
    // 2 3
    &[[(2, 0), (2, 1), (3, 1)], [(2, 0), (3, 1), (3, 0)]],
    // 0 2 3
    &[[(0, 1), (2, 1), (3, 1)]],
    // 1 2 3
    &[[(1, 0), (3, 0), (2, 0)]],
    // 0 1 2 3
    &[],
];
