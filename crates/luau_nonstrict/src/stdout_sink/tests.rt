use super::*;
use std::test::Fail;

/// What the output does at one write.
#[derive(Clone, Copy)]
enum Answer {
    Takes(usize),
    Interrupted,
    Breaks,
}

use Answer::{Breaks, Interrupted, Takes};

/// An output that answers in turn, and from then on is interrupted.
#[derive(Drop)]
struct Script {
    answers: &'static [Answer],
    at: usize,
}

impl Write for Script {
    fn write(&mut self, bytes: &[u8]) -> io::Result<usize> {
        let at = self.at;
        self.at = self.at.saturating_add(1);
        match self.answers.get(at) {
            Some(Takes(count)) => Ok(bytes.len().min(*count)),
            Some(Breaks) => Err(io::Error::from(ErrorKind::BrokenPipe)),
            _ => Err(io::Error::from(ErrorKind::Interrupted)),
        }
    }

    fn flush(&mut self) -> io::Result<()> {
        Ok(())
    }
}

#[test]
fn a_write_is_tried_again_and_its_failures_count(rt: HostRuntime) -> Result<(), Fail> {
    for (answers, wanted, faults) in [
        ([Takes(9), Breaks, Breaks].as_slice(), Ok(4), 0),
        ([Takes(3), Breaks, Breaks].as_slice(), Ok(3), 0),
        ([Interrupted, Interrupted, Takes(2)].as_slice(), Ok(2), 0),
        ([Takes(0), Takes(1), Takes(1)].as_slice(), Ok(0), 1),
        ([Breaks, Takes(1), Takes(1)].as_slice(), Err(SinkFailed), 1),
        (
            [Interrupted, Breaks, Takes(1)].as_slice(),
            Err(SinkFailed),
            1,
        ),
        ([].as_slice(), Err(SinkFailed), 1),
    ] {
        let mut sink = StdoutSink::new(Script { answers, at: 0 });
        assert!(rt; sink.write(b"text") == wanted);
        assert_eq!(rt; sink.faults.count, faults);
    }
    Ok(())
}

#[test]
fn standard_output_takes_bytes(rt: HostRuntime) {
    let mut sink = StdoutSink::new(io::writer(&rt));
    let answer = sink.write(b"a line\n");
    assert!(rt; matches!(answer, Ok(1..=7)));
    assert_eq!(rt; sink.faults.count, 0);
}
