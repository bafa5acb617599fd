//! Where bits go, and the numbers by which they are stepped there.

ghost use Rattle.std.specs.Prelude.{◌≡◌};
ghost use Rattle.interleave.specs.Factors.{FindsTheSmallest};
ghost use Rattle.interleave.specs.Places.{PlacesByHand, PlacesOneToOne, BlockOneToOne};

/// In a block of 13 rows of 36 bits, the bits 1, 36 and 467 go to the places 83, 41 and 163.
pub fn places_by_hand()
    ensures { PlacesByHand }
{}

/// In blocks of any size the bits go one-to-one to the places, if the step from column to column
/// has no common factor with the length of a row, and that from row to row none with their count.
pub fn places_are_one_to_one()
    ensures { PlacesOneToOne }
{}

/// With the stage's own steps the bits of a block of any size go one-to-one to its places.
pub fn blocks_are_one_to_one()
    ensures { BlockOneToOne }
{}

/// The numbers that the steps are, are the smallest without a common factor.
pub fn steps_are_the_smallest()
    ensures { FindsTheSmallest }
{}
