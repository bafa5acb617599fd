//! All worked examples of sizes, refusals, packed headers and codings, as one fact.
#![tactic(auto)]

ghost use Rattle.examples.specs.Examples.{Examples};

use codings::scramble_example;
use convolution::convolutions::single_one_is_coded;
use frame::worked_examples;
use interleave::places::places_by_hand;
use packing::packing_examples;

/// Every worked example holds of the definitions that the contracts of the calls cite.
pub fn examples_hold_together()
    ensures { Examples }
{
    worked_examples();
    packing_examples();
    scramble_example();
    single_one_is_coded();
    places_by_hand();
}
