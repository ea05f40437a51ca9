//! Laws of the definitions.
ghost use Rattle.module_validator.specs.CodeVerdicts.{ValidCodeIsOk, FirstFaultIsErr};

/// The validity of code, as a function of its bytes, is the verdict of the validator of bodies.
pub fn law_code_validity()
    ensures valid { ValidCodeIsOk }
    ensures fault { FirstFaultIsErr }
{}
