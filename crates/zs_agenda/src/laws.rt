//! Laws of clocks and timer queues: what their definitions determine.
ghost use Rattle.std.specs.Prelude.{◌↔◌, ℕ, List, IsTrue};
ghost use Rattle.zs_agenda.specs.Tests.{is_clock, is_tick_list};
ghost use Rattle.zs_agenda.specs.Ticks.{IsClock, IsTickList, Ticks};
ghost use Rattle.zs_agenda.specs.Timers.{TakesOneWay};

/// The definition of a take determines its result and the queue after it.
pub fn one_take()
    ensures one { TakesOneWay }
{}

/// The tests of ticks pass exactly if the ticks may be a clock's, so a reader may believe either.
pub fn clocks_are_tested()
    ensures tick_lists { (ticks : List ℕ) → IsTrue (is_tick_list ticks) ↔ IsTickList ticks }
    ensures clocks { (clock : Ticks) → IsTrue (is_clock clock) ↔ IsClock clock }
{}
