// What is printed of a file.
use crate::arguments::Cutting;
use grammar::{Counts, FileFault};
use layout::KINDS;
use reader::check;
use recordbytes::RECORD_LENGTH;
use refusals::Refusal;
use source::{Lines, NoRecord, Packed, Source};
use std::io;
use survey::{Sort, Survey, survey_of};

pub fn report_file(rt: &HostRuntime, path: &str, file: &[u8], cutting: Cutting) -> io::Result<()> {
    // each source is a type of its own, so a closure that makes it would only move this choice
    if cutting.is_in_lines(file) {
        report_source(rt, path, "in lines", &mut Lines::new(file))
    } else {
        report_source(rt, path, "packed", &mut Packed::new(file))
    }
}

fn report_source<S: Source>(
    rt: &HostRuntime,
    path: &str,
    how: &str,
    source: &mut S,
) -> io::Result<()> {
    let slots = source.count();
    println!(rt; "{path}: slots {slots}, {how}")?;
    match check(source) {
        Ok(counts) => report_counts(rt, counts)?,
        Err(fault) => report_fault(rt, fault)?,
    }
    report_survey(rt, survey_of(source))?;
    report_damages(rt, source)
}

fn report_counts(rt: &HostRuntime, counts: Counts) -> io::Result<()> {
    let statements = counts.statements;
    let movements = counts.movements;
    println!(rt; "   passes: statements {statements}, movements {movements}")
}

fn report_fault(rt: &HostRuntime, fault: FileFault) -> io::Result<()> {
    println!(rt; "   refused: {}", Refusal::from(fault))?;
    println!(rt; "            {fault}")
}

fn report_survey(rt: &HostRuntime, survey: Survey) -> io::Result<()> {
    for kind in KINDS {
        let records = survey.count(Sort::Record(kind));
        if records > 0 {
            println!(rt; "{records:>7}  {kind}")?;
        }
    }
    let unknown = survey.count(Sort::Unknown);
    if unknown > 0 {
        println!(rt; "{unknown:>7}  of no known kind")?;
    }
    let damaged = survey.count(Sort::Damaged);
    if damaged > 0 {
        println!(rt; "{damaged:>7}  damaged")?;
    }
    Ok(())
}

fn report_damages<S: Source>(rt: &HostRuntime, source: &mut S) -> io::Result<()> {
    let mut bytes = [0; RECORD_LENGTH];
    for slot in 1..=source.count() {
        if let Err(NoRecord::Damaged(damage)) = source.fetch(slot, &mut bytes) {
            println!(rt;
                "         slot {slot} is damaged: cause {}, {damage}",
                damage.cause
            )?;
        }
    }
    Ok(())
}
