//! The laws of written code, each stated as the contract of a function that does nothing.
ghost use Rattle.written_validity.specs.ValidatedBodies.{AcceptedIsValid, ValidAtEachPlace};
ghost use Rattle.written_validity.specs.WrittenCode.{WrittenIsValid};

/// If the bytes of a body are valid code, so are the operators that `rewrite_body` and `rewrite_flat` write for it, with the locals that they
/// declare, where all ids but those of locals are indices, and only locals get other numbers. `V` is the type of a validator's state.
pub fn law_written_validity<V>()
    ensures { WrittenIsValid V }
{}

/// A body that is accepted with `BodyValidator`, or another validator that takes the steps of the validation algorithm, is valid code. What is
/// valid code is valid from every place on.
pub fn law_validated_bodies()
    ensures accepted { AcceptedIsValid }
    ensures places { ValidAtEachPlace }
{}
