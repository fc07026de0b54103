// What is proved of numbering a skin's corners in the order in which triangles meet them: one small function for each theorem, whose
// contract is the theorem.
#![tactic(auto)]

ghost use Rattle.theory_numbers.specs.Numbers.{CornersNumberedOnce, AsTheyAreMet, NumberedSkinsClosed, AtMostSix};
ghost use Rattle.theory_numbers.specs.Order.{CubesInOrder, EndsAtTop, CornersFirstMet};

// Each corner has one number, and each number below the count is one corner's.
pub fn corners_are_numbered_once() -> u8
    ensures { CornersNumberedOnce }
{
    0
}

// Numbering as one goes gives the final numbers.
pub fn numbers_stay() -> u8
    ensures { AsTheyAreMet }
{
    0
}

// The skin by numbers is closed, and around each number there is one ring.
pub fn numbered_skin_is_closed() -> u8
    ensures { NumberedSkinsClosed }
{
    0
}

// Cube after cube, row after row, layer after layer make up the skin.
pub fn cubes_go_in_order() -> u8
    ensures { CubesInOrder }
{
    0
}

// A corner is met first in the cube whose highest point is the upper end of its edge.
pub fn corners_are_first_met() -> u8
    ensures top { EndsAtTop }
    ensures met { CornersFirstMet }
{
    0
}

// There are at most six corners for each cube.
pub fn corners_are_at_most_six_a_cube() -> u8
    ensures { AtMostSix }
{
    0
}
