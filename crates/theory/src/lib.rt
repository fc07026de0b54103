// What is proved of every skin, whatever is inside: one small function for each theorem, whose contract is the theorem.
#![tactic(auto)]

ghost use Rattle.theory.specs.Closed.{Closed, WholeTriangles, OneRing, Parted, NothingOpen};
ghost use Rattle.theory.specs.Faces.{PiecesMeet, CubesMeet, PiecesTurned, FacesDecide, FaceLaw, FacesSigned};
ghost use Rattle.theory.specs.Places.{LieBetweenEnds, StepKnown, StrictlyWithin, EitherEnd, NoTwoAtOnePlace, CrossedOnce};
ghost use Rattle.theory.specs.Spelled.{SpelledOut};
ghost use Rattle.theory.specs.Worked.{WorkedOut};

// Each side of a triangle is run once, and exactly one other triangle runs it the other way.
pub fn skin_is_closed() -> u8
    ensures { Closed }
{
    0
}

// No triangle has a corner twice.
pub fn triangles_are_whole() -> u8
    ensures { WholeTriangles }
{
    0
}

// Around each corner there is one ring of triangles.
pub fn corners_have_one_ring() -> u8
    ensures { OneRing }
{
    0
}

// The corners are the edges of the grid from a point inside to one outside: all of these, and nothing else.
pub fn skin_parts_inside_from_outside() -> u8
    ensures { Parted }
{
    0
}

// Where nothing is inside there is no triangle.
pub fn nothing_inside_has_no_skin() -> u8
    ensures { NothingOpen }
{
    0
}

// The six pieces of a cube meet in common faces only.
pub fn pieces_meet_in_faces() -> u8
    ensures { PiecesMeet }
{
    0
}

// Two neighbouring cubes cut their common square alike.
pub fn cubes_meet_in_faces() -> u8
    ensures { CubesMeet }
{
    0
}

// The points 0 to 3 of each piece have the determinant 1.
pub fn pieces_are_turned_alike() -> u8
    ensures { PiecesTurned }
{
    0
}

// The side that the skin has in a face depends on the face's three points alone.
pub fn faces_decide() -> u8
    ensures { FacesDecide }
{
    0
}

// Sums over the faces of all pieces cancel, whatever is summed.
pub fn faces_cancel() -> u8
    ensures signed { FacesSigned }
    ensures law { FaceLaw }
{
    0
}

// A coordinate lies between those of the two ends of its step.
pub fn coordinates_lie_between_ends() -> u8
    ensures { LieBetweenEnds }
{
    0
}

// A place within a step of the grid gives back the step: it lies on no other, and at no point of the grid.
pub fn places_give_back_steps() -> u8
    ensures known { StepKnown }
    ensures within { StrictlyWithin }
    ensures turned { EitherEnd }
{
    0
}

// No two corners of a skin are at one place; a step with one end inside has exactly one corner on it, and any other step none.
pub fn corners_lie_apart() -> u8
    ensures apart { NoTwoAtOnePlace }
    ensures once { CrossedOnce }
{
    0
}

// The skin spelled out, cube by cube.
pub fn skin_is_as_spelled_out() -> u8
    ensures { SpelledOut }
{
    0
}

// Two small blocks, worked out.
pub fn worked_blocks() -> u8
    ensures { WorkedOut }
{
    0
}
