//! The law of walks. Its contract states it.
ghost use Rattle.walrus_ir.specs.WalkLaws.{OneTree, TreeHasNoFault, OneFault, TreeOrFault};
ghost use Rattle.walrus_ir.specs.WalkLaws.{TreeIsWalked, WalkMakesTree};

/// From each start sequence, a function has either exactly one tree or exactly one first fault. A
/// tree is walked to its end, and a walk that reaches its end has walked through a tree.
pub fn law_walk()
    ensures one_tree { OneTree }
    ensures no_fault { TreeHasNoFault }
    ensures one_fault { OneFault }
    ensures either { TreeOrFault }
    ensures walked { TreeIsWalked }
    ensures makes_tree { WalkMakesTree }
{}
