// Examples worked by hand, proved of the definitions alone.
#![tactic(auto)]

ghost use Rattle.worked_days.specs.Worked.{ExamplesHold};

// Every example of the common table is what the definitions say.
pub fn worked_examples_hold()
    ensures { ExamplesHold }
{}
