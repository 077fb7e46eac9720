//! An audit of a book whose contracts are daily profiles, which are a form written outside `forms`.
ghost use Rattle.std.specs.Prelude.{◌≡◌, length, IfOk};
ghost use Rattle.std.specs.Result.{result_err};
ghost use Rattle.profile.specs.Profile.{profile};
ghost use Rattle.runs.specs.Lent.{memory_in};
ghost use Rattle.audit.specs.Audits.{SettledIn, audit_fault};
ghost use Rattle.audit.specs.Cases.{case_of};
ghost use Rattle.audit.specs.Found.{found_in};

use audit::{Call, Findings, Lent, Report, audit};
use book::{BookFault, MonthFigures};
use profile::DailyProfile;

/// Settles the three books of an audit, all of whose contracts are daily profiles.
pub fn audit_profiles(
    figures: MonthFigures,
    calls: &[Call],
    lent: &mut Lent<'_>,
    findings: &mut Findings<'_>,
) -> Result<Report, BookFault>
    ensures fault { let found = found_in findings.old in
        result_err result ≡ audit_fault figures (length calls.now) (memory_in lent.old) found }
    ensures settled { let case = case_of profile figures lent.old.agents.now calls.now in
        IfOk result (SettledIn case (memory_in lent.old) (found_in findings.new)) }
{
    audit(figures, &DailyProfile, calls, lent, findings)
}
