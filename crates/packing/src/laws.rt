//! Laws of packing. The functions do nothing: each one's contract is the law.
ghost use Rattle.packing.specs.Examples.{Packing_examples};
ghost use Rattle.packing.specs.Laws.{Packing_loses_nothing};

/// A legal header packs to five bytes that unpack to it again, and no other bytes unpack to it.
pub fn packing_loses_nothing()
    ensures { Packing_loses_nothing }
{}

/// The worked examples of packed headers hold of the definitions.
pub fn packing_examples()
    ensures { Packing_examples }
{}
