//! Laws of validation, each stated as the contract of a function that does nothing.
ghost use Rattle.wasm_validation.specs.ValidationVerdicts.{ValidHasNoFault, OneFaultOfCode, SameSteps};

/// Bytes that are valid as a body have no first fault, and other bytes have at most one.
pub fn law_one_verdict()
    ensures valid { ValidHasNoFault }
    ensures one { OneFaultOfCode }
{}

/// A `BodyValidator` takes operators in the steps of the algorithm, and refuses where these do.
pub fn law_same_steps()
    ensures { SameSteps }
{}
