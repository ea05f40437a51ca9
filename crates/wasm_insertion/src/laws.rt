//! The laws of inserting, each stated as the contract of a function that does nothing.
ghost use Rattle.wasm_insertion.specs.Insertion.{InsertedRuns, SameOrStops, SourceRuns, NamedInsertedRuns, NamedSourceRuns, MeteredIsPaid, MeteredIsExact, MeteredIsInserted};
ghost use Rattle.wasm_insertion.specs.EditedTrees.{EditedTrees};
ghost use Rattle.wasm_insertion.specs.InsertedTexts.{InsertedTexts};
ghost use Rattle.wasm_insertion.specs.InsertedTrees.{InsertedNormalForms};
ghost use Rattle.wasm_insertion.specs.InsertedValidity.{ProbedStaysValid, ProbedIsInserted};

/// What is inserted changes nothing else of a run (WebAssembly core specification 3.0, execution,
/// instructions). Plain operators, such as calls, are inserted into a body at any places. Each run of
/// the body with them is a run of the source, with the inserted operators between its events, up to
/// the first inserted operator that stops: it traps, throws, or gets no outcome of the kind that it
/// asks for. The operators of the source get the same outcomes. And for each run of the source there
/// are outcomes with which no inserted operator stops, and the run is the source's without the events
/// of inserted operators. `A` is the type of what is shown for an operator of the source, and `P` for
/// an inserted one.
pub fn law_inserted<A, P>()
    ensures runs { InsertedRuns A P }
    ensures same_or_stops { SameOrStops A P }
    ensures source_runs { SourceRuns A P }
    ensures named { NamedInsertedRuns }
    ensures named_source { NamedSourceRuns }
{}

/// A body is metered if an added operator before each straight piece of code charges the cost of the
/// piece. In each run, at each event of the source's operators, what was charged is no less than the
/// cost of those that were executed. Up to the first exception that is caught it is exact: at each
/// charge, and where the function returns or leaves by a tail call, what was charged before is what
/// was used. Metering is an insertion, so it changes nothing else of a run.
pub fn law_metered<A>()
    ensures paid { MeteredIsPaid A }
    ensures exact { MeteredIsExact A }
    ensures inserted { MeteredIsInserted A }
{}

/// Where a body is valid it is valid with probes (appendix, validation algorithm): plain operators
/// that together have the type [] -> [] and initialise no local, under any rules for operands. The
/// operators with probes form a body with inserted operators, so `law_inserted` says how it runs.
/// `T` is what is known of an operand.
pub fn law_inserted_valid<T>()
    ensures stays_valid { ProbedStaysValid T }
    ensures is_inserted { ProbedIsInserted T }
{}

/// The normal form of a body with inserted operators is the source's, with instructions inserted. If
/// the operators are typed it has a text, which executes alike with them. And the other way round: a
/// tree that is the normal form of a typed body, with instructions of plain operators inserted, is the
/// normal form of a typed body with inserted operators, but for the locations of the ends of
/// sequences. The instructions may be before any other and at the end of any sequence, but not after
/// one that never goes on. What is written for such a tree runs as the source with the inserted
/// operators between its events, as `law_inserted` says, and is valid where the operators of this body
/// are. `T` is what is known of an operand.
pub fn law_inserted_trees<T>()
    ensures normal_forms { InsertedNormalForms }
    ensures edited { EditedTrees T }
{}

/// What is written for a body with inserted operators is the text of its normal form. Each run of it
/// is a run of the source with the inserted operators between its events, as `law_inserted` says, and
/// for each run of the source there is one in which no inserted operator stops. Each event has the
/// location of its operator, the source's or an inserted one, and so do the pairs that are written.
/// The text is valid where the operators are, and where the source is if these are the source's with
/// probes. `T` is what is known of an operand.
pub fn law_inserted_texts<T>()
    ensures { InsertedTexts T }
{}
