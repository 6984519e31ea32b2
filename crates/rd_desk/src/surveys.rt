//! What an image has on it, for the staff.

ghost use Rattle.std.specs.Prelude.{IfOk, ℤ};
ghost use Rattle.rd_policy.specs.Dates.{IsDateOf};
ghost use Rattle.rd_volume.specs.Reports.{IsReport};
ghost use Rattle.rd_store.specs.Held.{Keeps, Reads, desk};
ghost use Rattle.rd_desk.specs.Calls.{Carries, IsSurveyAt};
ghost use Rattle.rd_protocol.specs.Replies.{IsSurveyOf};

use crate::asking::Unavailable;
use rd_geometry::{Image, Text};
use rd_policy::{date_text, is_day};
use rd_protocol::{Refusal, Response, Survey, What};
use rd_store::{DeedRow, ImageRow, Store};
use rd_volume::{Report, report};
use sqlite::Alter;
use std::alloc::Global;

/// The counts of what an image has on it.
fn counted(alloc: Global, image: &ImageRow) -> Result<Report, Unavailable>
    ensures { IfOk result (IsReport image.now.kind image.now.bytes) }
{
    let Ok(disk) = Image::new(image.kind, image.bytes.as_slice()) else {
        return Err(Unavailable);
    };
    Ok(report(alloc, &disk)?)
}

/// The date of a day, of the years 1 to 9999.
fn date(alloc: Global, day: i32) -> Result<Text, Unavailable>
    ensures { IfOk result (IsDateOf day) }
{
    if !is_day(day) {
        return Err(Unavailable);
    }
    Ok(Text::of(date_text(alloc, day)?))
}

/// The survey of an image that came by a deed.
fn survey_of(
    alloc: Global,
    acc: u32,
    image: &ImageRow,
    deed: DeedRow,
) -> Result<Survey, Unavailable>
    ensures { IfOk result (IsSurveyOf acc image.now deed) }
{
    let report = counted(alloc, image)?;
    let signed = date(alloc, deed.signed)?;
    Ok(Survey {
        accession: acc,
        deed: image.deed,
        donor: deed.donor,
        signed,
        kind: image.kind,
        report,
    })
}

/// The survey of the image at an accession; `None` if there is none.
fn survey_at<S: Alter>(
    store: &mut Store<S>,
    alloc: Global,
    acc: u32,
) -> Result<Option<Survey>, Unavailable>
    ensures { Reads S.Store store.old store.new result (IsSurveyAt (desk S.Store store.old) acc) }
{
    let Some(image) = store.image(alloc, acc)? else {
        return Ok(None);
    };
    let Some(deed) = store.deed(image.deed)? else {
        return Err(Unavailable);
    };
    Ok(Some(survey_of(alloc, acc, &image, deed)?))
}

/// The answer to the staff that says what the image of an accession has on it.
pub(crate) fn survey<S: Alter>(
    store: &mut Store<S>,
    alloc: Global,
    acc: u32,
) -> Result<Response, Unavailable>
    ensures carries { (day : ℤ) → Carries S.Store store.old store.new day (What.Survey acc) result }
    ensures keeps { Keeps S.Store store.old store.new }
{
    match survey_at(store, alloc, acc)? {
        Some(survey) => Ok(Response::Surveyed(survey)),
        None => Ok(Response::Refused(Refusal::NoAccession)),
    }
}
