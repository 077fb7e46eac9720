//! What an audit found, in words.
use crate::dollars::Dollars;
use audit::{Comparison, Report};
use book::BookFault;
use std::fmt;
use thiserror::Error;

/// Why there is no book to audit.
#[derive(Clone, Copy, Debug, Error)]
pub(crate) enum NoAudit {
    /// The journal opens none.
    #[error("Audit: none, since no book was opened.")]
    NoOpening,
    /// The book refused the last opening.
    #[error("Audit: none, since the last opening was refused, fault {} at {}, {}.", .0.number(), .0.place(), .0)]
    Refused(BookFault),
}

/// What an audit reports.
#[derive(Clone, Copy)]
pub(crate) struct Facts(pub(crate) Report);

/// Writes the sums of balances and the residue.
fn write_sums<W: fmt::Write>(report: Report, f: &mut fmt::Formatter<W>) -> fmt::Result {
    let sums = [
        ("first", report.balances),
        ("second", report.balances_without),
        ("third", report.balances_again),
    ];
    for (book, sum) in sums {
        writeln!(
            f,
            "Sum of balances in the {book} book: {}.",
            Dollars::from(sum)
        )?;
    }
    writeln!(
        f,
        "Residue of the standing hours: {}.",
        Dollars::from(report.residue)
    )
}

impl fmt::Display for Facts {
    fn fmt<W: fmt::Write>(&self, f: &mut fmt::Formatter<W>) -> fmt::Result {
        let report = self.0;
        let Comparison {
            heard,
            alike,
            strangers,
            strangers_same,
            same,
        } = report.comparison;
        writeln!(
            f,
            "Calls that the first and the second book both heard: {heard}."
        )?;
        writeln!(f, "Of these calls, answered alike: {alike}.")?;
        write_sums(report, f)?;
        writeln!(
            f,
            "Agents that are party to no standing contract: {strangers}."
        )?;
        writeln!(
            f,
            "Of these agents, with the same statement in the first and the second book: {strangers_same}."
        )?;
        write!(
            f,
            "Agents with the same statement in the first and the third book: {same}."
        )
    }
}
