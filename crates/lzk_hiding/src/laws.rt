//! Laws of the definitions, as contracts of functions that do nothing.

ghost use Rattle.lzk_shares.specs.Shares.{drawn_below, element_bias, most_random, prime_size, proof_bias};
ghost use Rattle.lzk_hiding.specs.Honest.{HonestPass};
ghost use Rattle.lzk_hiding.specs.Laws.{
  CountsAgree,
  DrawsAreCases,
  ElementsDecide,
  Hides,
  ListsCounted,
  OneSeen,
  ProofsAreSeen,
  ProofsLead,
  SeenAlike,
  SeenEquallyOften,
  SeenPasses,
  SimulatedOnce,
  SimulatedPasses,
  SomeSeen,
  WordsCounted,
};
ghost use Rattle.lzk_hiding.specs.Tree.{ProgrammedAccepted, ProgrammedFiles, ProofsAreCompleted};
ghost use Rattle.lzk_hiding.specs.Words.{IsSmall, RandomAreFew};

use lzk_field::Field;

/// What a prover sends and opens is seen by its own tape's draws. Random elements lead to one thing, and what it is
/// they alone decide. What is seen of satisfying inputs passes a verifier's checks.
pub fn seen_laws<F: Field>()
    ensures seen { ProofsAreSeen F.ops F.coding }
    ensures cases { DrawsAreCases F.ops F.coding }
    ensures lead { ProofsLead F.ops F.coding }
    ensures some { SomeSeen F.ops F.coding }
    ensures one { OneSeen F.ops F.coding }
    ensures decided { ElementsDecide F.ops F.coding }
    ensures passes { SeenPasses F.ops F.coding }
{}

/// Whichever satisfying private inputs a prover has, to all that passes lead equally many lists of random elements:
/// so they hide which they are.
pub fn hiding_laws<F: Field>()
    ensures equally { SeenEquallyOften F.ops F.coding }
    ensures alike { SeenAlike F.ops F.coding }
    ensures lists { ListsCounted F.coding }
    ensures words { WordsCounted F.coding }
{}

/// A simulator, which knows no private inputs, makes exactly what passes, each by one list of free elements; and a
/// prover's lists are longer by the idle elements. So to anything lead equal shares of both: what a prover shows and
/// what a simulator makes have the same distribution.
pub fn simulator_laws<F: Field>()
    ensures passes { SimulatedPasses F.ops F.coding }
    ensures once { SimulatedOnce F.ops F.coding }
    ensures counts { CountsAgree F.ops }
    ensures hides { Hides F.ops F.coding }
{}

/// An element of the prime field, drawn of random words, is within 2^-element_bias of uniform, and all random elements
/// of a proof together, of which no circuit has more than most_random, within 2^-proof_bias: in LZK1 2^-96, 72,574 and
/// 2^-79. Over GF(2^128) each element has one word.
pub fn word_laws<F: Field>()
    ensures few { RandomAreFew F.ops }
    ensures one { IsSmall prime_size drawn_below 1 element_bias }
    ensures all { IsSmall prime_size drawn_below most_random proof_bias }
{}

/// Root and path of a prover's proof are made of what is seen, the nonces and the digests of the other columns. By a
/// programmed tape, which gives draws that were fixed before, what passes is so completed to a proof with the verdict
/// Accepted, by any nonces and any such digests. Of nonces and digests of 32 bytes it has a file.
pub fn tape_laws<F: Field>()
    ensures completed { ProofsAreCompleted F.ops F.coding }
    ensures programmed { ProgrammedAccepted F.ops F.coding }
    ensures files { ProgrammedFiles F.ops F.coding }
{}

/// An honest prover is one of the strategies that soundness counts: for every valid circuit, satisfying inputs and
/// random words it passes by all draws and all sets of columns, and its inputs are what its table encodes.
pub fn honest_laws<F: Field>()
    ensures { HonestPass F.ops F.coding }
{}
