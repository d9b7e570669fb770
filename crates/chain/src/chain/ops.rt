// How a chain is made and read.
ghost use Rattle.std.specs.Prelude.{◌≡◌, ◌<◌, [], ◌∷◌, ◌++◌, length, Decides, MatchOption};
ghost use Rattle.chain.specs.Chains.{steps_of};
ghost use Rattle.std.specs.Cmp.Lexicographic.{pointwise, lists_per, lists_equiv};
ghost use Rattle.std.specs.Ordering.{on};
ghost use Rattle.chain.specs.contracts.StepPartialEq.TheImpl.Laws as compared;
ghost use Rattle.chain.specs.contracts.StepEq.TheImpl.Laws as equal;
ghost use Rattle.std.specs.Cmp.{on_per, on_equiv};

use super::super::Step;
use super::{BLANK, Chain, MAX_STEPS};

impl Chain {
    pub fn new() -> Chain
        ensures { steps_of result ≡ [] }
    {
        Chain {
            steps: [BLANK; MAX_STEPS],
            len: 0,
        }
    }

    pub fn len(&self) -> usize
        ensures { result ≡ length (steps_of self.now) }
    {
        self.len
    }

    pub fn steps(&self) -> &[Step]
        ensures { result.now ≡ steps_of self.now }
    {
        &self.steps[..self.len]
    }

    // The chain with one more step, unless it has fifteen.
    pub fn with(self, step: Step) -> Option<Chain>
        ensures { MatchOption result (length (steps_of self) ≡ 15) (λ c. (length (steps_of self) < 15) × (steps_of c ≡ steps_of self ++ step ∷ [])) }
    {
        if self.len == MAX_STEPS {
            return None;
        }
        let mut steps = self.steps;
        steps[self.len] = step;
        Some(Chain {
            steps,
            len: self.len + 1,
        })
    }
}

// Two chains are equal where their steps are.
impl PartialEq for Chain {
    ghost eq = { on steps_of (pointwise ⟦<Step as PartialEq>⟧.eq) };

    ghost laws = { on_per steps_of (lists_per compared.lawful.laws) };

    fn eq(&self, other: &Chain) -> bool
        ensures computed { result ≡ on steps_of (pointwise ⟦<Step as PartialEq>⟧.eq) self.now other.now }
        ensures decides { Decides result (steps_of self.now ≡ steps_of other.now) }
    {
        self.steps() == other.steps()
    }
}

impl Eq for Chain {
    ghost laws = { on_equiv steps_of (lists_equiv equal.lawful.laws) };
}
