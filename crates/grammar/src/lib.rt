// Path texts: their grammar, what each is read as, and the long form of a chain. Definitions and laws; the code stands above.
#![tactic(auto)]

ghost use Rattle.grammar.specs.Grammar.{PathsOnce};
ghost use Rattle.grammar.specs.Readings.{ReadsOnce};
ghost use Rattle.grammar.specs.LongForm.{ReadsBack};

// The grammar gives a text at most one list of items, so reading has one answer; and a chain written out reads back as itself.
pub fn paths_stand()
    ensures grammar { PathsOnce }
    ensures answer { ReadsOnce }
    ensures back { ReadsBack }
{}
