//! A journal audited: its calls are kept, and the audit of the last book opened is printed.
use crate::facts::{Facts, NoAudit};
use crate::record::{Opening, Record};
use crate::session::{Desk, run};
use crate::trouble::Trouble;
use audit::Call;
use std::alloc::Global;

/// A desk that answers nothing, and keeps the last opening with the calls after it, each with the number of its line.
#[derive(Drop)]
struct Listener {
    heap: Global,
    record: Option<Record>,
    lines: Vec<usize>,
}

impl Desk for Listener {
    fn open(&mut self, _line: usize, opening: Opening) -> Result<(), Trouble> {
        self.record = Some(Record::new(self.heap, opening));
        self.lines = Vec::new(self.heap);
        Ok(())
    }

    fn call(&mut self, line: usize, call: Call) -> Result<(), Trouble> {
        if let Some(record) = &mut self.record {
            record.calls.push(call)?;
            self.lines.push(line)?;
        }
        Ok(())
    }

    fn statements(&mut self, line: usize) -> Result<(), Trouble> {
        let count = match &self.record {
            Some(record) => record.opening.figures.agents,
            None => 0,
        };
        for index in 0..count {
            self.call(line, Call::Statement(index + 1))?;
        }
        Ok(())
    }
}

/// Reads a journal, audits the last book that it opens, and prints what the audit found.
pub(crate) fn audit(rt: &HostRuntime, text: &str) -> Result<(), Trouble> {
    let heap = rt.alloc();
    let mut listener = Listener {
        heap,
        record: None,
        lines: Vec::new(heap),
    };
    run(heap, text, &mut listener)?;
    let Some(record) = &listener.record else {
        return Ok(rt.println(NoAudit::NoOpening)?);
    };
    let audited = match record.audit(heap)? {
        Ok(audited) => audited,
        Err(fault) => return Ok(rt.println(NoAudit::Refused(fault))?),
    };
    rt.println(Facts(audited.report))?;
    let differences = audited.differences(heap, &record.calls, &listener.lines)?;
    if differences.is_empty() {
        rt.println("Agents and lines that differ: none.")?;
    }
    for difference in &differences {
        rt.println(*difference)?;
    }
    Ok(())
}
