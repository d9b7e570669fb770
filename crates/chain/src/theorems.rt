// The theorems on axes and chains, each as a contract, so that the check asks for its proof.
ghost use Rattle.std.specs.Prelude.{◌≡◌, Decides};
ghost use Rattle.chain.specs.Chains.{steps_of};
ghost use Rattle.chain.specs.declared.chain.Chain.{Chain};
ghost use Rattle.std.specs.Cmp.Lexicographic.{pointwise};
ghost use Rattle.std.specs.Ordering.{on};
ghost use Rattle.chain.specs.Laws.{WordsBack, WordsOnly, ChainsSame, FewSteps};

use super::{Chain, Step};

// Each axis is the one that its word names, and no other word names it.
pub fn axes_stand()
    ensures back { WordsBack }
    ensures only { WordsOnly }
{}

// A chain is known by its steps, which are at most fifteen, and `==` tells whether they are the same.
pub fn chains_stand()
    ensures same { ChainsSame }
    ensures equal { (a : Chain) (b : Chain) → Decides (⟦<Chain as PartialEq>⟧.eq a b) (steps_of a ≡ steps_of b) }
    ensures computed { (a : Chain) (b : Chain) → ⟦<Chain as PartialEq>⟧.eq a b ≡ on steps_of (pointwise ⟦<Step as PartialEq>⟧.eq) a b }
    ensures few { FewSteps }
{}
