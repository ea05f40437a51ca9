//! The laws of what is written for a body into which a tool inserts instructions, each stated as the
//! contract of a function that does nothing.
ghost use Rattle.inserted_code.specs.ChargeTypes.{TypedChargesAreProbes};
ghost use Rattle.inserted_code.specs.InsertedCode.{BegunCode, ChargedCode, EditedCode};

/// What `change_all` keeps of a function that `meter` of `walrus_metering` changed is the raw body of a
/// tree for whose text `law_metered_texts` holds: it executes the source's operators with charges
/// between, each run of it is paid and exact, and it is valid where the source is if charges are
/// probes. Its location pairs give along each run the locations of the source's operators, and the
/// default one for those of charges.
pub fn law_charged_code()
    ensures { ChargedCode }
{}

/// What `change_all` keeps of a function before whose instructions others were put, as `law_prepended` of
/// `walrus_insertion` has it, is the raw body of a tree for whose text this law holds: it executes the
/// operators of these instructions and then the source's, and it is valid where the source is if
/// together these are a probe. Its location pairs give along each run the locations of the operators.
pub fn law_begun_code()
    ensures { BegunCode }
{}

/// What `change_all` keeps of a function into which plain instructions were inserted, as by `insert` of
/// `walrus_insertion`, is the raw body of a tree for which `law_inserted_trees` of `wasm_insertion`
/// holds: each run is one of the source with the inserted operators between its events.
pub fn law_inserted_code()
    ensures { EditedCode }
{}

/// By the rules of the standard each charge is a probe if the function that it calls takes an i64 and
/// gives nothing, or the global that it adds to is a mutable i64. So what is written for a function that
/// charges what it executes is valid where the source is.
pub fn law_charge_types()
    ensures { TypedChargesAreProbes }
{}
