use super::*;
use std::test::Fail;

/// A file of `x` that gives one byte at each read, with an interrupted read before each, and fails
/// after some.
#[derive(Drop)]
struct Slow {
    good: u32,
    interrupted: bool,
}

impl Read for Slow {
    fn read(&mut self, buf: &mut [u8]) -> io::Result<usize> {
        self.interrupted = !self.interrupted;
        if self.interrupted {
            return Err(io::Error::from(ErrorKind::Interrupted));
        }
        match (buf, self.good) {
            ([first, ..], 1..) => {
                *first = b'x';
                self.good -= 1;
                Ok(1)
            }
            _ => Err(io::Error::from(ErrorKind::InvalidData)),
        }
    }
}

#[test]
fn a_front_is_whole_or_an_error(rt: HostRuntime) -> Result<(), Fail> {
    for (good, at_most, wanted) in [
        (5, 5, Some(5)),
        (5, 4, Some(4)),
        (5, 6, None),
        (0, 0, Some(0)),
    ] {
        let mut file = Slow {
            good,
            interrupted: false,
        };
        let bytes = front(rt.alloc(), &mut file, at_most);
        assert_eq!(rt; bytes.ok().map(|b| b.len()), wanted, "{good} {at_most}");
    }
    let long = [b'y'; 20_000];
    let mut file = long.as_slice();
    assert_eq!(rt; front(rt.alloc(), &mut file, 10_000)?.len(), 10_000);
    assert_eq!(rt; file.len(), 10_000);
    Ok(())
}
