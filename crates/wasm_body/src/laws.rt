//! Laws of trees and texts, each stated as the contract of a function that does nothing.
ghost use Rattle.wasm_body.specs.ExecutionLaws.{NamedExecutionsKept, ExecutionsKept, RunsShowOperators, CountSuffices, EmptyContinues};
ghost use Rattle.wasm_body.specs.LocationLaws.{PlacesIncrease, PairsMatchText, TextIsRewritten, NamedLocationsAreHonest, LocationsAreHonest};
ghost use Rattle.wasm_body.specs.ReadBack.{ReadBack, NormalFormAgain, SameBytes, InverseUndoes, AcceptedAgain};
ghost use Rattle.wasm_body.specs.TextLaws.{LawfulAreTyped, HaveTexts, NormalAgain, OneBody, OneSequence, ExponentsAreWritten, SameTexts};
ghost use Rattle.wasm_body.specs.ValidityLaws.{NamedValidityKept, ValidityKept};
ghost use Rattle.wasm_body.specs.LocalNumbers.{OneDeclared, OneLocalEach, PlacesAreNumbers, RunsAreMaximal};
ghost use Rattle.wasm_body.specs.EmissionFaults.{EmissionFaults, DeclarationFaults};
ghost use Rattle.wasm_body.specs.Parsing.Laws.{OneBodyAccepted, AcceptedHasNoFault, OneFirstFault, AcceptedOrFault, LongestFront, AnyLocations};

/// A list is the text of at most one body, and there is at most one way in which it begins with a
/// sequence and an operator that ends it.
pub fn law_unique_reading<A>()
    ensures of_bodies { OneBody A }
    ensures of_sequences { OneSequence A }
{}

/// Bytes are accepted as one body, or have one first fault, and never both. The front before a
/// first fault is the longest that can be completed to a lawful body. `V` is the type of a
/// validator's state.
pub fn law_one_result<V>()
    ensures one_body { OneBodyAccepted V }
    ensures no_fault { AcceptedHasNoFault V }
    ensures one_fault { OneFirstFault V }
    ensures either { AcceptedOrFault V }
    ensures longest { LongestFront V }
{}

/// A body that is accepted is accepted with every location function of a caller, as a body whose
/// normal form is the same tree, locations aside. `V` is the type of a validator's state.
pub fn law_any_locations<V>()
    ensures { AnyLocations V }
{}

/// The normal form of a typed body of named operators has a text, and the text forms a body again.
/// A body is typed if the type that is picked for each operator that opens a construct has its
/// block type as signature, and no other operator has a block type. Operators that form a lawful
/// body and have encodings, such as those of every accepted body, are typed. An alignment is
/// written as the exponent of the greatest power of two that is at most it.
pub fn law_normal_form_texts()
    ensures texts { HaveTexts }
    ensures lawful { LawfulAreTyped }
    ensures exponents { ExponentsAreWritten }
{}

/// The text of the normal form of a typed body, read as a body again, has a normal form that is the
/// same tree.
pub fn law_normal_again()
    ensures { NormalAgain }
{}

/// Trees that are the same, locations aside, are written as the same operators, or refused with the
/// same fault, in every way of writing. `M` is the type of a written label, and `C` that of a
/// written block type.
pub fn law_same_texts<M, C>()
    ensures { SameTexts M C }
{}

/// The normal form of a body has a text, and the two execute the same operators, at the same
/// locations, and end in the same way: for all outcomes and turns. This holds for each typed body
/// of named operators, whatever constructs it has, and so for every accepted body. Each event of a
/// run has its operator. The count of operators, which bounds a turn of a run, is enough: a run
/// that ends with Returned has returned.
pub fn law_executions()
    ensures named { NamedExecutionsKept }
    ensures accepted { ExecutionsKept }
    ensures by_place { RunsShowOperators }
    ensures count_suffices { CountSuffices }
{}

/// A sequence whose normal form is empty, such as an alternative that is left out, executes nothing
/// and goes on with what comes after it.
pub fn law_empty_continues()
    ensures { EmptyContinues }
{}

/// Location pairs are right along every run. The places of the pairs that are written for a tree
/// strictly increase. The pairs of a body's normal form are one for each operator of its text, with
/// the operator's location, if the numbers and the names are those of one module. That text is the
/// text of the rewritten body: an operator is left out, or written as it is, at its location; an
/// `else`, a clause or an `end` is written at the location of the one of the source in its place;
/// an `else` that says nothing is left out, and its `if` is closed at the location of the source's
/// `end`, or of the source's `else` if that is the default location; an `else` that is added has
/// the location of the source's `end`; and the `end` after it, and each `delegate`, have the
/// default location. Whatever comes before the bytes, for each event of a run of the text the pair
/// at the place of its operator has the location of the operator of the same event in the source's
/// run. (The operator of an exception that is caught is the one that opened the construct.)
pub fn law_locations()
    ensures increase { PlacesIncrease }
    ensures of_text { PairsMatchText }
    ensures is_rewritten { TextIsRewritten }
    ensures named { NamedLocationsAreHonest }
    ensures accepted { LocationsAreHonest }
{}

/// The bytes of a normal form, read back with maps that undo the numbers, are those of a body whose
/// normal form is the same tree, locations aside, and has the same bytes. The text of a normal
/// form, read as a body, has a normal form that is the same tree. Trees that are the same have the
/// same bytes.
pub fn law_read_back()
    ensures read_back { ReadBack }
    ensures normal_again { NormalFormAgain }
    ensures same_bytes { SameBytes }
{}

/// Maps that map the number of each id that has one to the id undo the numbers of the normal form
/// of every lawful body.
pub fn law_inverse_undoes()
    ensures { InverseUndoes }
{}

/// The bytes of the normal form of an accepted body are accepted again, with maps that undo the
/// numbers, if their operators have locations and pass the validator. Whatever body they are
/// accepted as, its normal form is the same tree, locations aside, and has the same bytes. `V` and
/// `W` are the types of the states of the two validators.
pub fn law_accepted_again<V, W>()
    ensures { AcceptedAgain V W }
{}

/// The locals that a function declares, and their order, are unique. No two locals have the same
/// number; and if no argument is named twice, the number of a local is its place in the list of
/// the arguments followed by the declared locals. Declarations are the maximal runs of one type.
pub fn law_local_numbers()
    ensures one_declared { OneDeclared }
    ensures one_local { OneLocalEach }
    ensures places { PlacesAreNumbers }
    ensures runs { RunsAreMaximal }
{}

/// Why the result of a parse can't be written, with numbers that fit 32 bits: an id or a local has
/// no number; or, for the declarations alone, there are too many locals. No other fault is
/// possible: the tree has no branch outside, no unlawful clauses, and no depth or count that is too
/// large.
pub fn law_emission_faults()
    ensures operators { EmissionFaults }
    ensures declarations { DeclarationFaults }
{}

/// What was valid stays valid: the normal form of a body has a text, and if the validation algorithm of
/// the standard accepts the operators of the body, it accepts those of the text, under any rules for
/// operands and in any function. This holds for each typed body of named operators, and so for every
/// accepted body. `T` is what is known of an operand. Nothing is said the other way: a body that is
/// refused for code that can't be reached may have a valid text.
pub fn law_validity<T>()
    ensures named { NamedValidityKept T }
    ensures accepted { ValidityKept T }
{}
