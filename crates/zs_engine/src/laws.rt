//! The law of clocks.
ghost use Rattle.std.specs.Prelude.{◌≡◌};
ghost use Rattle.zs_agenda.specs.Ticks.{max_horizon};
ghost use Rattle.zs_drive.specs.Clocks.{max_tick};
ghost use Rattle.zs_engine.specs.Times.{SameTicks, TicksRise};

/// A clock has the same ticks as the list of its ticks, and this list rises up to the horizon.
pub fn listed_ticks()
    ensures tick { SameTicks }
    ensures rising { TicksRise }
    // Clocks and tasks have one greatest moment.
    ensures limit { max_horizon ≡ max_tick }
{}
