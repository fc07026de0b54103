// What is promised of a skin holds of it as it stands in buffers, corners by numbers: one small function for each theorem, whose contract
// is the theorem.
#![tactic(auto)]

ghost use Rattle.theory_buffers.specs.ByNumber.{SkinsByNumber, SkinsSizedByNumber, SkinsPartedByNumber};

// Each step of the grid is crossed as its ends say, no two numbers have one place, and the triangles enclose what is inside.
pub fn skin_by_numbers_is_as_promised() -> u8
    ensures { SkinsByNumber }
{
    0
}

// No coordinate, determinant or count of triangles is larger than what is measured.
pub fn skin_by_numbers_is_small() -> u8
    ensures { SkinsSizedByNumber }
{
    0
}

// Parts found by numbers are the parts of the skin, with the same counts and volumes.
pub fn parts_by_numbers_are_parts_of_the_skin() -> u8
    ensures { SkinsPartedByNumber }
{
    0
}
