//! Calls that allocate, which a script runs under an allocator that refuses one growth. A case or a call of which memory
//! was refused is made again, and must then hold or answer as ever.

use super::cases::{Case, holds};
use super::cbm_directory::DIRECTORIES;
use super::chains::ENDING;
use super::days::{DATES, NO_DATES, OTHER_FORMS, assert_no_dates};
use super::reports::{MAPS, REPORTS};
use super::surveys::{AT_SLOTS, OF_CBM, OF_CPM};
use super::{cbm_files, cpm_files};
use rd_policy::{DateFault, date_read, date_text, is_day};
use rd_volume::NoMemory;
use std::alloc::Global;
use std::process::Abort;
use std::test::Fail;

fn assert_again(rt: &impl Abort, alloc: Global, cases: &[Case]) {
    for case in cases {
        let told = match holds(alloc, *case) {
            Err(NoMemory) => holds(alloc, *case),
            told => told,
        };
        assert_eq!(rt; told, Ok(true), "{}", case.0);
    }
}

#[test]
fn files_when_memory_is_refused(rt: HostRuntime) {
    assert_again(&rt, rt.alloc(), cpm_files::FILES);
}

#[test]
fn claims_when_memory_is_refused(rt: HostRuntime) {
    assert_again(&rt, rt.alloc(), cpm_files::CLAIMS);
}

#[test]
fn chains_when_memory_is_refused(rt: HostRuntime) {
    assert_again(&rt, rt.alloc(), ENDING);
}

#[test]
fn directories_when_memory_is_refused(rt: HostRuntime) {
    assert_again(&rt, rt.alloc(), DIRECTORIES);
}

#[test]
fn files_of_a_1541_when_memory_is_refused(rt: HostRuntime) {
    assert_again(&rt, rt.alloc(), cbm_files::FILES);
}

#[test]
fn block_maps_when_memory_is_refused(rt: HostRuntime) {
    assert_again(&rt, rt.alloc(), MAPS);
}

#[test]
fn surveys_of_cpm_when_memory_is_refused(rt: HostRuntime) {
    assert_again(&rt, rt.alloc(), OF_CPM);
}

#[test]
fn surveys_of_a_1541_when_memory_is_refused(rt: HostRuntime) {
    assert_again(&rt, rt.alloc(), OF_CBM);
}

#[test]
fn reports_when_memory_is_refused(rt: HostRuntime) {
    assert_again(&rt, rt.alloc(), REPORTS);
}

#[test]
fn files_at_slots_when_memory_is_refused(rt: HostRuntime) {
    assert_again(&rt, rt.alloc(), AT_SLOTS);
}

fn text_again(rt: &impl Abort, alloc: Global, day: i32) -> Result<String, NoMemory> {
    assert!(rt; is_day(day));
    match date_text(alloc, day) {
        Ok(text) => Ok(text),
        Err(NoMemory) => date_text(alloc, day),
    }
}

fn day_again(alloc: Global, text: &str) -> Result<i32, DateFault> {
    match date_read(alloc, text) {
        Err(DateFault::NoMemory) => date_read(alloc, text),
        answer => answer,
    }
}

fn assert_texts(rt: &impl Abort, alloc: Global, cases: &[(&str, i32)]) -> Result<(), Fail> {
    for (date, day) in cases {
        assert_eq!(rt; text_again(rt, alloc, *day)?.as_str(), *date);
    }
    Ok(())
}

#[test]
fn dates_when_memory_is_refused(rt: HostRuntime) -> Result<(), Fail> {
    assert_texts(&rt, rt.alloc(), DATES)
}

fn assert_days(rt: &impl Abort, alloc: Global, cases: &[(&str, i32)]) {
    for (date, day) in cases {
        assert_eq!(rt; day_again(alloc, *date), Ok(*day), "{date}");
    }
}

#[test]
fn days_when_memory_is_refused(rt: HostRuntime) {
    assert_days(&rt, rt.alloc(), DATES);
}

fn assert_no_days_of_other_forms(rt: &impl Abort, alloc: Global, texts: &[&str]) {
    for text in texts {
        assert_eq!(rt;
            day_again(alloc, *text),
            Err(DateFault::BadDate),
            "{text:?}"
        );
    }
}

/// A text that is no date in any form takes no memory, so it gives `BadDate` at the first call, whichever growth is
/// refused. A date in another form takes some, to write the date, and the first growth of all is one of these.
#[test]
fn texts_without_a_day_when_memory_is_refused(rt: HostRuntime) {
    assert_no_dates(&rt, rt.alloc(), NO_DATES);
    assert_no_days_of_other_forms(&rt, rt.alloc(), OTHER_FORMS);
}
