//! The laws of functions that charge what they execute.
ghost use Rattle.walrus_metering.specs.MeteredTrees.{MeteredTrees};
ghost use Rattle.walrus_metering.specs.ChargedRuns.{ChargedRunsArePaid};
ghost use Rattle.walrus_metering.specs.MeteredTexts.{MeteredTexts};

/// Where the tree of a function was the normal form of a body, the tree of the function that `meter`
/// makes of it is the normal form of the body that `law_metered` of `wasm_insertion` is about, with the
/// operators of a charge in the place of each added one.
pub fn law_metered_trees()
    ensures { MeteredTrees }
{}

/// Each run of such a body is one of the metered body, with the operators that prepare a charge
/// between, up to the first of these that stops; and this run is paid and exact, as `law_metered` says,
/// and one of the source with charges between, up to the first charge that stops. `A` is the type of
/// what is shown for an operator of the source, and `P` for one that prepares a charge.
pub fn law_charged_runs<A, P>()
    ensures { ChargedRunsArePaid A P }
{}

/// What is written for the tree of `law_metered_trees` is the source's, instrumented as
/// `law_inserted_texts` of `wasm_insertion` says: it executes the source's operators with those of
/// charges between, and its pairs give their locations. Each run of it is one of `law_charged_runs`. It
/// is valid where the source is if the operators of each charge take no operands and leave none. `T` is
/// what is known of an operand.
pub fn law_metered_texts<T>()
    ensures { MeteredTexts T }
{}
