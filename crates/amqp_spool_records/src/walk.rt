//! Going through the segments of a spool, once.

ghost use Rattle.amqp_spool_records.specs.Tellings.{MayComeFrom};

use crate::extents::Reach;
use crate::faults::SpoolFault;
use crate::reader::Reader;
use crate::survey::Survey;
use crate::visiting::Visitor;
use amqp_spool::DirFiles;
use std::alloc::Global;
use std::fs::Files;

/// Goes through a spool, and tells the visitor each record after the number `from`, in order, each once. Without it these
/// are all that are not gone. Numbers up to the floor are gone, also if their segments are still there.
///
/// Of each segment but the newest as much is read as the head of the next one counts; of the newest as much as the
/// published end says, and without an end the whole batches. In memory it holds one batch, the number of each segment, and
/// who sends on the links of one.
///
/// # Errors
///
/// Those of the visitor, which is told no more then, and `Refused`, `NoSegments`, `TooManySegments` and `NoMemory`.
pub fn walk<R: Files + Drop, V: Visitor>(
    files: DirFiles<R>,
    alloc: Global,
    from: Option<u64>,
    visitor: &mut V,
) -> Result<(), SpoolFault>
    requires { MayComeFrom (V.may_come visitor.old) 1 }
{
    let survey = Survey::of(&files)?;
    let mut reader = Reader::new(files, alloc, from);
    reader.own(survey.spool)?;
    reader.read_older(&survey, visitor)?;
    reader.read_newest(&survey, Reach::Whole(survey.end), visitor)?;
    Ok(())
}
