//! Carries out a command on an image. The first word is the path of the image's file, which is made where it isn't there;
//! the others are the command. The source is standard input, and all lines go to standard output, those of faults too. Standard
//! error gets a sentence for people where the status isn't 0. The program ends with the status's number. Behind `mirror` stands
//! the path of a second image's file.
#![tactic(auto)]

mod carrying;
mod images;
mod mirrors;

use crate::carrying::{mirrored, served};
use crate::images::{Images, open_images};
use crate::mirrors::{mirror_ended, tell_of_mirror};
use command_outcomes::{Fault, Status, put_fault, status_of};
use edge_gathered::GatheringWriter;
use edge_streams::{FileDisk, ReadSource, Sink, WriteSink};
use hopper_top::{OpenGate, has_workers, hopper_counted};
use line_sentences::put_sentence;
use std::alloc::Global;
use std::env;
use std::fs::{File, Files};
use std::io::{ErrorKind, Write};
use std::process::ExitCode;
use std::rt::Env;

/// The words of the command line, the program's own name first. Words that are no text are of no known form.
fn words(rt: &(impl Env + Alloc<A = Global>)) -> Result<Vec<String>, Fault> {
    let mut words = Vec::new(rt.alloc());
    let given = match env::args(rt) {
        Ok(given) => given,
        Err(error) if error.kind() == ErrorKind::OutOfMemory => return Err(Fault::Memory),
        Err(_) => return Err(Fault::Usage),
    };
    for word in given {
        if words.push(word).is_err() {
            return Err(Fault::Memory);
        }
    }
    Ok(words)
}

/// Tells how it ended, for people, and ends with the status's number.
fn tell<E: Sink>(people: &mut E, status: &Status) -> ExitCode {
    let _ = put_sentence(people, status);
    ExitCode::from(status.number())
}

/// Tells a fault that came before any command: its line, and its sentence.
fn refuse<W: Sink, E: Sink>(sink: &mut W, people: &mut E, fault: Fault) -> ExitCode {
    let _ = put_fault(sink, &fault);
    tell(people, &status_of(fault))
}

/// How the command ended, once all that was gathered is handed on: one whose last lines can't be is told as one whose sink failed.
fn ended<W: Write + Drop>(sink: WriteSink<GatheringWriter<W>>, status: Status) -> Status {
    let handed_on = sink.into_writer().finish();
    match (status, handed_on) {
        (Status::Done, Err(_)) => Status::SinkFault,
        (status, _) => status,
    }
}

/// What is asked for: the words of the command, and the images that it is about, open.
#[derive(Drop)]
struct Asked {
    words: Vec<String>,
    images: Images,
}

/// The command, behind the program's name and the image's path.
fn command_of(words: &[String]) -> &[String] {
    match words {
        [_, _, command @ ..] => command,
        _ => &[],
    }
}

/// Reads the words, and opens what they name. Where that fails it is told.
fn open_asked<R: Env + Files<File = File> + Alloc<A = Global>, W: Sink, E: Sink>(
    rt: &R,
    sink: &mut W,
    people: &mut E,
) -> Result<Asked, ExitCode> {
    let words = match words(rt) {
        Ok(words) => words,
        Err(fault) => return Err(refuse(sink, people, fault)),
    };
    let images = match words.as_slice() {
        [_, path, command @ ..] => open_images(rt, path.as_str(), command, sink, people)?,
        _ => return Err(refuse(sink, people, Fault::Usage)),
    };
    Ok(Asked { words, images })
}

fn main(rt: HostRuntime) -> ExitCode {
    let mut source = ReadSource::new(rt.stdin().lock());
    let mut people = WriteSink::new(rt.stderr().lock());
    let mut sink = WriteSink::new(rt.stdout().lock());
    let asked = match open_asked(&rt, &mut sink, &mut people) {
        Ok(asked) => asked,
        Err(code) => return code,
    };
    let Ok(writer) = GatheringWriter::new(rt.alloc(), sink.into_writer()) else {
        let mut sink = WriteSink::new(rt.stdout().lock());
        return refuse(&mut sink, &mut people, Fault::Memory);
    };
    let mut sink = WriteSink::new(writer);
    let command = command_of(&asked.words);
    match asked.images {
        Images::One(file) if has_workers(command) => {
            let outcome = hopper_counted(
                &rt,
                rt.alloc(),
                command,
                &mut source,
                &mut sink,
                FileDisk::new(file),
                &OpenGate,
            );
            tell(&mut people, &ended(sink, outcome.status))
        }
        Images::One(file) => {
            let status = served(rt.alloc(), command, &mut source, &mut sink, file);
            tell(&mut people, &ended(sink, status))
        }
        Images::Two(images) => {
            let status = mirrored(rt.alloc(), images, &mut source, &mut sink);
            tell_of_mirror(&mut people, mirror_ended(sink, status))
        }
    }
}
