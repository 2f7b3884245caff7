// The images that a command is about.
use crate::refuse;
use command_mirror::{MirrorFault, MirrorStatus, MirrorWhy, SecondFault, put_mirror_fault};
use command_outcomes::{Fault, Status, put_fault};
use command_words::mirror_words;
use edge_streams::Sink;
use line_sentences::put_unopened;
use std::fs::{File, Files, OpenOptions};
use std::io;
use std::process::ExitCode;

/// Their files, open.
#[derive(Drop)]
pub(crate) enum Images {
    /// That of a command.
    One(File),
    /// Those of `mirror`.
    Two(Two),
}

/// The files of both nodes, and what the network is drawn from: a seed, and how many packets and counts of a hundred it loses.
#[derive(Drop)]
pub(crate) struct Two {
    pub(crate) first: File,
    pub(crate) second: File,
    pub(crate) seed: u64,
    pub(crate) loss: u8,
}

// A file, which is made where it isn't there.
fn open_file<R: Files>(files: &R, path: &str) -> io::Result<R::File> {
    OpenOptions::new()
        .read(true)
        .write(true)
        .create(true)
        .open(files, path)
}

// The file of the image.
fn open_one<R: Files<File = File>, W: Sink, E: Sink>(
    files: &R,
    path: &str,
    sink: &mut W,
    people: &mut E,
) -> Result<File, ExitCode> {
    match open_file(files, path) {
        Ok(file) => Ok(file),
        Err(_) => {
            let _ = put_fault(sink, &Fault::DiskFault);
            let _ = put_unopened(people, path);
            Err(ExitCode::from(Status::DiskFault.number()))
        }
    }
}

// The file of the standby's image.
fn open_standby<R: Files<File = File>, W: Sink, E: Sink>(
    files: &R,
    path: &str,
    sink: &mut W,
    people: &mut E,
) -> Result<File, ExitCode> {
    match open_file(files, path) {
        Ok(file) => Ok(file),
        Err(_) => {
            let _ = put_mirror_fault(sink, &MirrorFault::Second(SecondFault::DiskFault));
            let _ = put_unopened(people, path);
            let failed = MirrorStatus::Second(MirrorWhy::DiskFault);
            Err(ExitCode::from(failed.number()))
        }
    }
}

/// Opens the files of a command on the image of a path: behind `mirror` stand the path of the standby's file, which is opened behind the
/// image's, a seed and a loss. Where a file can't be opened, or the words behind `mirror` are of no known form, that is told.
pub(crate) fn open_images<R: Files<File = File>, W: Sink, E: Sink>(
    files: &R,
    path: &str,
    command: &[String],
    sink: &mut W,
    people: &mut E,
) -> Result<Images, ExitCode> {
    match command {
        [first, words @ ..] if first.as_str() == "mirror" => {
            let ([standby, ..], Some((seed, loss))) = (words, mirror_words(words)) else {
                return Err(refuse(sink, people, Fault::Usage));
            };
            let first = open_one(files, path, sink, people)?;
            let second = open_standby(files, standby.as_str(), sink, people)?;
            Ok(Images::Two(Two {
                first,
                second,
                seed,
                loss,
            }))
        }
        _ => Ok(Images::One(open_one(files, path, sink, people)?)),
    }
}
