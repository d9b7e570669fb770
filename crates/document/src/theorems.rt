// The theorems on documents and calls, each as a contract, so that the check asks for its proof.
ghost use Rattle.document.specs.Laws.{GrownWell, WellLawful, CallsNext, RunsStable, CallsEffect, GroundsOrdered};
ghost use Rattle.document.specs.Samples.{SamplesHold};

// Every document that calls leave is well formed, and the laws follow.
pub fn documents_stand()
    ensures grown { GrownWell }
    ensures lawful { WellLawful }
{}

// What calls answer and what they do to a document.
pub fn calls_stand()
    ensures next { CallsNext }
    ensures runs { RunsStable }
    ensures effect { CallsEffect }
    ensures ordered { GroundsOrdered }
    ensures samples { SamplesHold }
{}
