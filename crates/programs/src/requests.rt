//! The messages of the input, answered in turn on a volume.

ghost use Rattle.limits.specs.declared.TheConstants.{GREATEST_CAPACITY};
ghost use Rattle.std.specs.Prelude.{◌≤◌, IfErr};
ghost use Rattle.engine.specs.Situation.{situation_on};
ghost use Rattle.programs.specs.Applied.{AppliesInGroups, AppliesStream, AppliesToImage, AnswersInMemory};
ghost use Rattle.programs.specs.Images.{images_on};
ghost use Rattle.programs.specs.Inputs.{CountsReads};
ghost use Rattle.programs.specs.Status.{IsRefusal};

use crate::fault::Fault;
use crate::images::{open_image, put_back};
use drive::{Drive, MemDrive};
use engine::{CountedReader, Engine, serve};
use grouping::serve_groups;
use media::Media;
use settling::Settles;
use std::alloc::Global;
use std::io::{Read, Write};
use store::format;

/// How many bytes of the input are read before those messages are answered that are complete in them. A group may have
/// as many: a photo, say, with all that is asked for it.
pub(crate) const MOST_AT_ONCE: usize = 4_194_304;

/// The label of a volume in memory.
const MEMORY_LABEL: &str = "MEM";

/// Answers the messages of the input on the volume of an image, those that came together as a group.
pub(crate) fn apply_to_image<M, I, O>(
    alloc: Global,
    media: &mut M,
    image: &str,
    input: &mut CountedReader<I>,
    output: &mut O,
) -> Result<(), Fault>
where
    M: Media,
    I: Read,
    O: Write,
    ensures refusal { IfErr result IsRefusal }
    ensures failures { CountsReads result input.old.failures input.new.failures }
    ensures applies { AppliesToImage image.now result (images_on M.Media media.old) (images_on M.Media media.new) (I.remaining input.old.stream) (I.remaining input.new.stream) (O.contents output.old) (O.contents output.new) }
{
    let mut drive = open_image(media, image)?;
    let applied = apply_in_groups(alloc, &mut drive, input, output);
    put_back(media, image, drive);
    applied
}

/// Answers the messages of the input in groups.
fn apply_in_groups<D: Settles, I: Read, O: Write>(
    alloc: Global,
    drive: &mut D,
    input: &mut CountedReader<I>,
    output: &mut O,
) -> Result<(), Fault>
    ensures refusal { IfErr result IsRefusal }
    ensures failures { CountsReads result input.old.failures input.new.failures }
    ensures applies { AppliesInGroups result (situation_on D.Drive None drive.old) (D.gathering drive.old)
        (situation_on D.Drive None drive.new)
        (I.remaining input.old.stream) (I.remaining input.new.stream) (O.contents output.old) (O.contents output.new) }
{
    let mut engine = Engine::new();
    serve_groups(alloc, input, MOST_AT_ONCE, output, &mut engine, drive)?;
    Ok(())
}

/// Answers the messages of the input on a new volume in memory.
pub(crate) fn apply_in_memory<I: Read, O: Write>(
    alloc: Global,
    capacity: u32,
    input: &mut CountedReader<I>,
    output: &mut O,
) -> Result<(), Fault>
    requires { capacity ≤ GREATEST_CAPACITY }
    ensures refusal { IfErr result IsRefusal }
    ensures failures { CountsReads result input.old.failures input.new.failures }
    ensures answers { AnswersInMemory result capacity (I.remaining input.old.stream) (I.remaining input.new.stream) (O.contents output.old) (O.contents output.new) }
{
    let mut drive = MemDrive::new(alloc, capacity, Vec::new(alloc));
    format(alloc, &mut drive, MEMORY_LABEL, 0)?;
    apply(alloc, &mut drive, input, output)
}

/// Answers the messages of the input one by one, for a drive that syncs nothing.
fn apply<D: Drive, I: Read, O: Write>(
    alloc: Global,
    drive: &mut D,
    input: &mut CountedReader<I>,
    output: &mut O,
) -> Result<(), Fault>
    ensures refusal { IfErr result IsRefusal }
    ensures failures { CountsReads result input.old.failures input.new.failures }
    ensures applies { AppliesStream result (situation_on D.Drive None drive.old)
        (situation_on D.Drive None drive.new)
        (I.remaining input.old.stream) (I.remaining input.new.stream) (O.contents output.old) (O.contents output.new) }
{
    let mut engine = Engine::new();
    serve(alloc, input, output, &mut engine, drive)?;
    Ok(())
}
