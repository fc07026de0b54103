// What each part of a skin encloses, and that the parts make up the whole: one small function for each theorem, whose contract is the
// theorem.
#![tactic(auto)]

ghost use Rattle.std.specs.Prelude.{nat_eq};
ghost use Rattle.theory.specs.Skin.{same};
ghost use Rattle.theory_solids.specs.Adding.{PartsAddUp, PartsCounted};
ghost use Rattle.theory_solids.specs.Solids.{PartsAreSolid};

// A part's volume is that of its region, above 0 exactly if the part is seen from outside, and never 0.
pub fn parts_are_solid() -> u8
    ensures { PartsAreSolid }
{
    0
}

// The parts' volumes add up to the volume of the whole, as does whatever else a triangle is given.
pub fn parts_add_up() -> u8
    ensures numbers { PartsAddUp nat_eq }
    ensures edges { PartsAddUp same }
{
    0
}

// Each part has at least one triangle, and the parts' counts add up to all triangles.
pub fn parts_have_triangles() -> u8
    ensures numbers { PartsCounted nat_eq }
    ensures edges { PartsCounted same }
{
    0
}
