// What is proved of the volume that a skin encloses: one small function for each theorem, whose contract is the theorem.
#![tactic(auto)]

ghost use Rattle.theory_volume.specs.Inside.{Encloses, AboveZero, WorkedVolume};
ghost use Rattle.theory_volume.specs.Sizes.{SumsFit, StepsFit, TwelveACube};
ghost use Rattle.theory_volume.specs.Volume.{TurnedInsideOut};

// The triangles' determinants sum up to six times the volume of all that is inside.
pub fn skin_encloses_what_is_inside() -> u8
    ensures { Encloses }
{
    0
}

// Where a point is inside, that volume is above 0.
pub fn enclosed_volume_is_above_zero() -> u8
    ensures { AboveZero }
{
    0
}

// Triangles that are all run the other way have the negative sum.
pub fn turned_triangles_have_the_negative_volume() -> u8
    ensures { TurnedInsideOut }
{
    0
}

// One small block, worked out.
pub fn worked_volume() -> u8
    ensures { WorkedVolume }
{
    0
}

// No sum of a skin's determinants comes near the ends of 64 signed bits, nor does a step of working one out.
pub fn volumes_fit_64_bits() -> u8
    ensures count { TwelveACube }
    ensures sums { SumsFit }
    ensures steps { StepsFit }
{
    0
}
