//! The worked figures, as one table under one proof.
#![tactic(auto)]

ghost use Rattle.figures.specs.Figures.{Figures};

/// Every figure of the table stands. The definitions in it are those that the calls' contracts cite.
pub fn figures_stand()
    ensures { Figures }
{}
