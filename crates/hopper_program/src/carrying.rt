// What is asked for is carried out, over files as disks, without a thread.
ghost use Rattle.std.specs.Prelude.{◌≡◌, false, map, string_bytes};
ghost use Rattle.hopper_top.specs.Leaving.{names_workers};

use crate::images::Two;
use command_mirror::{MirrorStatus, mirror};
use command_outcomes::Status;
use edge_gathered::GatheringWriter;
use edge_managers::{CountedWords, EveryVersions, Policy, Supplier};
use edge_streams::{FileDisk, ReadSource, WriteSink};
use hopper_top::serve;
use std::alloc::Global;
use std::fs::File;
use std::io::{StdinLock, StdoutLock};

/// Standard input.
pub(crate) type Input<'a> = ReadSource<StdinLock<'a>>;

/// Standard output, whose lines are gathered.
pub(crate) type Output<'a> = WriteSink<GatheringWriter<StdoutLock<'a>>>;

/// How a command that names no workers ended on an image.
pub(crate) fn served(
    alloc: Global,
    command: &[String],
    source: &mut Input<'_>,
    sink: &mut Output<'_>,
    file: File,
) -> Status
    requires { names_workers (map string_bytes command.now) ≡ false }
{
    let outcome = serve(
        alloc,
        command,
        source,
        sink,
        FileDisk::new(file),
        &|tag, page, place| CountedWords.word(tag, page, place),
        &|every, since| EveryVersions.wish(every, since),
    );
    outcome.status
}

/// How a run on the first image ended, whose records the second follows.
pub(crate) fn mirrored(
    alloc: Global,
    images: Two,
    source: &mut Input<'_>,
    sink: &mut Output<'_>,
) -> MirrorStatus {
    let outcome = mirror(
        alloc,
        images.seed,
        images.loss,
        source,
        sink,
        FileDisk::new(images.first),
        FileDisk::new(images.second),
        &|tag, page, place| CountedWords.word(tag, page, place),
        &|every, since| EveryVersions.wish(every, since),
    );
    outcome.status
}
