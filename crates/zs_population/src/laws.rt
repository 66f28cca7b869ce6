//! What holds of populations beyond single calls.
ghost use Rattle.zs_population.specs.Joining.{RangesJoin};

/// The reports of ranges that follow each other from the first job to the last one, joined, are the
/// report of all jobs.
pub fn ranges_join()
    ensures joined { RangesJoin }
{}
