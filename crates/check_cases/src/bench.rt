// Puts cases to the checks in both kinds of time, and prints a line for each.
use crate::answer::Answer;
use crate::case::{Case, Group};
use crate::file::joined;
use bound::{Bound, Dense, Ticks};
use checks::{Check, decide};
use format::look_over;
use model::Files;
use report::Report;
use std::io;
use written::{bytes, end_after};

// The zones of a list that are struck, by their marks.
fn marks(struck: &[usize]) -> [bool; 512] {
    let mut marks = [false; 512];
    for zone in struck {
        if let Some(mark) = marks.get_mut(*zone) {
            *mark = true;
        }
    }
    marks
}

// The answer to one check in one kind of time.
fn answer<B: Bound>(files: &Files, check: Check, struck: &[bool; 512], area: &mut [B]) -> Answer {
    Answer(check, decide(files, struck, check, area))
}

// Where cases are run: what prints, and a work area of each kind.
#[derive(Drop)]
pub struct Bench<'a> {
    pub rt: &'a HostRuntime,
    pub dense: &'a mut [Dense],
    pub ticks: &'a mut [Ticks],
}

impl<'a> Bench<'a> {
    // The two lines of a check.
    fn show(
        &mut self,
        name: &str,
        files: &Files,
        check: Check,
        struck: &[bool; 512],
    ) -> io::Result<()> {
        let dense = answer(files, check, struck, self.dense);
        println!(self.rt; "dense, {name}: {dense}")?;
        let ticks = answer(files, check, struck, self.ticks);
        println!(self.rt; "ticks, {name}: {ticks}")
    }

    // The lines of the cases of two files.
    fn show_cases(&mut self, files: &Files, cases: &[Case]) -> io::Result<()> {
        for case in cases {
            let Case(name, check, struck) = *case;
            self.show(name, files, check, &marks(struck))?;
        }
        Ok(())
    }

    // The look-over's line for each case of two files that did not pass.
    fn show_fault(&mut self, report: Report, cases: &[Case]) -> io::Result<()> {
        for case in cases {
            let Case(name, _, _) = *case;
            println!(self.rt; "{name}: {report}")?;
        }
        Ok(())
    }

    // The lines of the cases of two files, given by their words without the ends.
    pub(crate) fn show_files(
        &mut self,
        model: &[u32],
        zones: &[u32],
        cases: &[Case],
    ) -> io::Result<()> {
        let heap = self.rt.alloc();
        let model = bytes(heap, model, end_after(model.len()))?;
        let zones = bytes(heap, zones, end_after(zones.len()))?;
        if let Err(fault) = look_over(&model, &zones) {
            self.show_fault(Report::from(fault), cases)?;
        }
        self.show_cases(&Files::new(&model, &zones), cases)
    }

    fn show_group(&mut self, group: &Group) -> io::Result<()> {
        let heap = self.rt.alloc();
        let model = joined(heap, group.head, group.model)?;
        let zones = joined(heap, group.head, group.zones)?;
        self.show_files(&model, &zones, group.cases)
    }

    pub(crate) fn show_all(&mut self, groups: &[Group]) -> io::Result<()> {
        for group in groups {
            self.show_group(group)?;
        }
        Ok(())
    }
}
