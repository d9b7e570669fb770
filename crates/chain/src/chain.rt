// A chain of steps. The struct stands alone, since the specs that its methods cite name it.
ghost use Rattle.std.specs.Prelude.{◌≡◌, ◌-◌, ◌≤◌, length, drop, replicate};
ghost use Rattle.chain.specs.Steps.{blank};

use super::{Axis, Step, Test};

mod ops;

// A chain has at most so many steps.
pub const MAX_STEPS: usize = 15;

// What stands in the places past the last step.
const BLANK: Step = Step {
    axis: Axis::Child,
    test: Test::AnyNode,
};

// The steps of a path, first to last. The places past them hold blanks, so that chains with the same steps are the same.
// Its callers copy a chain, and an inline vector (`arrayvec`) is not Copy, so the number of the steps stands beside the places.
#[derive(Clone, Copy, Debug)]
pub struct Chain {
    steps: [Step; MAX_STEPS],
    len: usize,
    ghost few: { len ≤ 15 },
    ghost whole: { length steps ≡ 15 },
    ghost rest: { drop len steps ≡ replicate (15 - len) blank },
}
