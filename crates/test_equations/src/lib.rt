//! Worked programs and texts as computed equations over the definitions: a change of a definition that
//! breaks an example is refused.
#![tactic(auto)]

ghost use Rattle.test_equations.specs.Laws.{CollectionsAllowTheSame, SlicesAllowClearings, SlicesAllowTheSame, SlicesMayClearNothing};

/// Nothing is run here: the examples are in proofs/. A law of the definition of which journals follow a schedule: where
/// nothing is lost that is held weakly, they are the same with its collections and without them. Which of them a run
/// has can depend on its collections.
pub fn collections_allow_the_same()
    ensures { CollectionsAllowTheSame }
{}

/// A law of slices, which give no entry of a thread: what follows a schedule without them follows it with them too, and a
/// journal without clearings follows it with them only so. So does every journal, while what is held weakly can be reached.
pub fn slices_allow_clearings()
    ensures nothing { SlicesMayClearNothing }
    ensures clearings { SlicesAllowClearings }
    ensures same { SlicesAllowTheSame }
{}
