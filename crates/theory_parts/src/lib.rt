// The parts of a skin: one small function for each theorem, whose contract is the theorem.
#![tactic(auto)]

ghost use Rattle.std.specs.Prelude.{nat_eq};
ghost use Rattle.theory.specs.Skin.{same};
ghost use Rattle.theory_parts.specs.Parts.{OnlyNumbering, CornersJoin, NoCornerInTwoParts, JoinedAsLinked};
ghost use Rattle.theory_parts.specs.Regions.{Turned, PartsEnclose, NumberedPartsEnclose};

// The triangles alone say which part has which number.
pub fn parts_are_numbered_in_one_way() -> u8
    ensures numbers { OnlyNumbering nat_eq }
    ensures edges { OnlyNumbering same }
{
    0
}

// Where there is one ring around each corner, no two parts share a corner.
pub fn parts_share_no_corner() -> u8
    ensures numbers { (CornersJoin nat_eq) × (NoCornerInTwoParts nat_eq) }
    ensures edges { (CornersJoin same) × (NoCornerInTwoParts same) }
{
    0
}

// Where there is one ring around each corner, triangles are joined by sides exactly if their corners are linked by triangles.
pub fn parts_go_by_corners() -> u8
    ensures numbers { JoinedAsLinked nat_eq }
    ensures edges { JoinedAsLinked same }
{
    0
}

// Each part is the skin of a region, seen from outside or from inside.
pub fn parts_enclose_regions() -> u8
    ensures told { PartsEnclose }
    ensures numbered { NumberedPartsEnclose }
{
    0
}

// If inside and outside are exchanged, each triangle is seen from its other side.
pub fn complement_is_inside_out() -> u8
    ensures { Turned }
{
    0
}
