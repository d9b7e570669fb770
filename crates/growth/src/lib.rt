// The calls of a document that is well formed: a document is well formed exactly if calls leave it.
#![tactic(auto)]

ghost use Rattle.growth.specs.Laws.{WellGrown};

// From its nodes alone the calls that leave a document are found again: the last one is taken back, as long as there is a node.
pub fn growth_stands()
    ensures { WellGrown }
{}
