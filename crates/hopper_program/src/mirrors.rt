// How a run ended that a standby followed.
use command_mirror::{MirrorStatus, MirrorWhy};
use command_outcomes::Status;
use edge_gathered::GatheringWriter;
use edge_streams::{Sink, WriteSink};
use line_sentences::put_sentence;
use std::io::Write;
use std::process::ExitCode;

// The status of a run that was stopped so.
fn as_run(why: MirrorWhy) -> Status {
    match why {
        MirrorWhy::Script(refusal) => Status::Script(refusal),
        MirrorWhy::Foreign { block, place } => Status::Foreign { block, place },
        MirrorWhy::DiskFault => Status::DiskFault,
        MirrorWhy::SourceFault => Status::SourceFault,
        MirrorWhy::SinkFault => Status::SinkFault,
        MirrorWhy::Memory => Status::Memory,
        MirrorWhy::BlocksFull(blocks) => Status::BlocksFull(blocks),
    }
}

// The sentence for people on how a mirrored run ended.
fn put_mirror_sentence<E: Sink>(people: &mut E, status: MirrorStatus) {
    match status {
        MirrorStatus::Done => {}
        MirrorStatus::First(MirrorWhy::Memory) => {
            let _ = people.put(
                b"out of memory: the run was stopped where it was, if it had begun; what was acknowledged stands\n",
            );
        }
        MirrorStatus::First(why) => {
            let _ = put_sentence(people, &as_run(why));
        }
        MirrorStatus::Second(why) => {
            let _ = people.put(b"at the standby: ");
            let _ = put_sentence(people, &as_run(why));
        }
        MirrorStatus::NotEmpty(_) => {
            let _ = people.put(
                b"at the standby: its log has records; a standby begins with an empty image, as format N makes one\n",
            );
        }
    }
}

/// How the run ended, once all that was gathered is handed on, as `ended` tells it of a command.
pub(crate) fn mirror_ended<W: Write + Drop>(
    sink: WriteSink<GatheringWriter<W>>,
    status: MirrorStatus,
) -> MirrorStatus {
    let handed_on = sink.into_writer().finish();
    match (status, handed_on) {
        (MirrorStatus::Done, Err(_)) => MirrorStatus::First(MirrorWhy::SinkFault),
        (status, _) => status,
    }
}

/// Tells how it ended, for people, and ends with the status's number.
pub(crate) fn tell_of_mirror<E: Sink>(people: &mut E, status: MirrorStatus) -> ExitCode {
    let number = status.number();
    put_mirror_sentence(people, status);
    ExitCode::from(number)
}
