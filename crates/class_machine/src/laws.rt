//! Laws of the definition's runs.

ghost use Rattle.class_machine.specs.Laws.{RunsAdd, OutputGrows, OverStays};
ghost use Rattle.class_machine.specs.Lot.{FirstLotIsBuilt};

/// A run of some steps and then of more is one run.
pub fn runs_add()
    ensures { RunsAdd }
{}

/// What a run has written stays, and a run that is over stays over.
pub fn output_grows()
    ensures grows { OutputGrows }
    ensures over { OverStays }
{}

/// The machine is built for each set of the first lot.
pub fn first_lot_is_built()
    ensures { FirstLotIsBuilt }
{}
