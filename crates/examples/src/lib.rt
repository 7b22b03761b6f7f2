//! Worked examples of words, flags, images and runs of the core, proved from the definitions that the other libraries'
//! contracts cite.
#![tactic(auto)]

ghost use Rattle.examples.specs.Table.{ExamplesHold};

/// Does nothing. Its contract says that every row of the table in specs/ holds.
pub fn examples_hold()
    ensures { ExamplesHold }
{}
