//! Laws of the types of operators, each stated as the contract of a function that does nothing.
ghost use Rattle.wasm_typing.specs.RuleLaws.{PlainHaveRules, ConditionalsHaveRules, TailCallsHaveRules, UnaryTakeOne, BinaryTakeTwo, TernaryTakeThree};
ghost use Rattle.wasm_typing.specs.MatchingLaws.{MatchingIsSound, MatchingIsComplete, TypesAreTested};
ghost use Rattle.wasm_typing.specs.RuleLaws.{MatchesItself, TypedOperators, ValidityIsTested, StandardValidityKept};

/// Each supported operator that is plain has a rule, and no other opcode has one; the same holds for
/// conditional branches and for tail calls.
pub fn law_rules()
    ensures plain { PlainHaveRules }
    ensures conditionals { ConditionalsHaveRules }
    ensures tail_calls { TailCallsHaveRules }
{}

/// Each operator of one, two or three operands takes so many and gives one. Only an operator with a
/// lane may be refused.
pub fn law_operand_numbers()
    ensures unary { UnaryTakeOne }
    ensures binary { BinaryTakeTwo }
    ensures ternary { TernaryTakeThree }
{}

/// The test for matching types is the rules of matching: what it accepts matches, each type matches
/// itself, and, where the types are those of a module, all that matches is accepted. For the types
/// of a module there is a test, too.
pub fn law_matching()
    ensures itself { MatchesItself }
    ensures sound { MatchingIsSound }
    ensures complete { MatchingIsComplete }
    ensures types { TypesAreTested }
{}

/// At a plain operator of a type the validation algorithm pops what the type takes, pushes what it
/// gives, and initialises its locals.
pub fn law_typed_operators()
    ensures { TypedOperators }
{}

/// Whether a body is valid by the rules of the standard is decided by a test. The normal form of an
/// accepted body has a text, and in each function of a module where the body is valid by these rules,
/// the text is.
pub fn law_standard_validity()
    ensures tested { ValidityIsTested }
    ensures kept { StandardValidityKept }
{}
