//! Laws of plans and reports, stated about their definitions.

ghost use Rattle.std.specs.Prelude.{◌≡◌, ◌↔◌, ℕ, List, Ok, Err};
ghost use Rattle.zs_effect.specs.declared.script.Beat.{Beat};
ghost use Rattle.zs_effect.specs.declared.script.ScriptFault.{ScriptFault};
ghost use Rattle.zs_effect.specs.Scripts.{IsFirstFault, IsScript};
ghost use Rattle.zs_run.specs.Jobs.{script_of};
ghost use Rattle.zs_run.specs.Lawful.{IsLawful};
ghost use Rattle.zs_run.specs.Plan.{PlanRecord, plan_of};
ghost use Rattle.zs_run.specs.PlanReport.{jobs_text, polls_of, report_of, with_total};
ghost use Rattle.zs_run.specs.ReportLaws.{AllPartsJoin, EndsAreThere, SameHorizons, SameJobs, SamePlans, SameTotals, TwoPartsJoin};

/// The report of a plan consists of the jobs' lines in order, and a last line with the sum of their
/// polls. So reports of parts can be joined, whatever the workers and the grain of a part.
pub fn reports_join()
    ensures part { (p : PlanRecord)
        → report_of p ≡ with_total (jobs_text p.clock p.jobs) (polls_of p.clock p.jobs) }
    // For two parts, and for any number of them.
    ensures two { TwoPartsJoin }
    ensures parts { AllPartsJoin }
{}

/// The report of a plan doesn't depend on its cut: plans with the same clock and jobs have the same
/// report.
pub fn the_cut_changes_nothing()
    ensures same { (p q : PlanRecord) → p.clock ≡ q.clock → p.jobs ≡ q.jobs
        → report_of p ≡ report_of q }
{}

/// Every accepted plan is lawful: its clock and its cut are valid, it has at most 10,000 jobs with
/// distinct names, and each job has a valid name, schedule and script.
pub fn accepted_plans_are_lawful()
    ensures lawful { (bytes : List ℕ) (plan : PlanRecord) → plan_of bytes ≡ Ok plan
        → IsLawful plan }
    // The tests of entries return a script exactly if the entries are one, and a fault exactly if
    // it is their first. So a reader may believe either definition.
    ensures scripts { (beats script : List Beat) → (script_of beats ≡ Ok script)
        ↔ ((script ≡ beats) × IsScript beats) }
    ensures faults { (beats : List Beat) (fault : ScriptFault) → (script_of beats ≡ Err fault)
        ↔ IsFirstFault beats fault }
{}

/// No report of a plan shows a default: if a job has an ending, its last attempt has ended, and if
/// it finished, its schedule was stepped at that end.
pub fn no_default_is_told()
    ensures ends { EndsAreThere }
{}

/// Different jobs have different reports. If two reports have the same text, their jobs are equal
/// in names, modes, attempts, outputs, endings and polls. So are their totals and, if a job is
/// unfinished, their horizons. The names have to be valid, and the numbers have to fit 64 bits.
pub fn reports_tell_apart()
    ensures jobs { SameJobs }
    ensures totals { SameTotals }
    ensures horizons { SameHorizons }
    // The same for the reports of two plans.
    ensures plans { SamePlans }
{}
