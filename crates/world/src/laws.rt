//! Laws of the texts of worlds, which compute nothing.

ghost use Rattle.world.specs.TextLaws.{WorldsAreRead};
ghost use Rattle.world_values.specs.WorldRules.{MeansOneWorld};

/// A world is read of exactly the texts that mean it.
pub fn worlds_are_read()
    ensures { WorldsAreRead }
{}

/// A text means one world at most.
pub fn texts_mean_one_world()
    ensures { MeansOneWorld }
{}
