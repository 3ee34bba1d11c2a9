// Units: an angle and a distance are both 16-bit numbers, and neither can be handed over as the other.

// An angle in 64ths of a degree.
#[derive(Clone, Copy, Debug, PartialEq, Eq)]
pub struct AngleQ6(pub u16);

// A distance in quarters of a millimetre.
#[derive(Clone, Copy, Debug, PartialEq, Eq)]
pub struct DistanceQ2(pub u16);
