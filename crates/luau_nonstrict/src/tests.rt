use super::*;
use nonstrict_cli::Limit;
use std::alloc::Global;
use std::cell::Cell;
use std::env::FillError;
use std::fmt::Display;
use std::test::Fail;

/// The words that a program was started with, its name first.
#[derive(Drop)]
struct Started<'a>(&'a [&'a [u8]]);

impl Env for Started<'_> {
    fn arg(&self, i: usize, buf: &mut [u8]) -> Result<usize, FillError> {
        let Some(word) = self.0.get(i) else {
            return Err(FillError::NotPresent);
        };
        if word.len() > buf.len() {
            return Err(FillError::TooLong);
        }
        let n = word.len();
        buf[..n].copy_from_slice(word);
        Ok(n)
    }

    fn var(&self, _name: &str, _buf: &mut [u8]) -> Result<usize, FillError> {
        Err(FillError::NotPresent)
    }

    fn var_at(&self, _i: usize, _buf: &mut [u8]) -> Result<usize, FillError> {
        Err(FillError::NotPresent)
    }
}

#[test]
fn words_come_after_the_name_and_are_text(rt: HostRuntime) -> Result<(), Fail> {
    for (started, wanted) in [
        ([].as_slice(), Some(0)),
        ([b"name".as_slice()].as_slice(), Some(0)),
        ([b"name".as_slice(), b"d"].as_slice(), Some(1)),
        (
            [b"name".as_slice(), b"--decl", b"", b"d"].as_slice(),
            Some(3),
        ),
        ([b"name".as_slice(), b"d\xff"].as_slice(), None),
    ] {
        match words(&(Started(started), rt.alloc())) {
            Ok(words) => assert_eq!(rt; Some(words.len()), wanted),
            Err(error) => {
                assert_eq!(rt; wanted, None);
                assert!(rt; matches!(unreadable(&error), Status::Usage));
            }
        }
    }
    Ok(())
}

/// A standard error that keeps what it is told.
#[derive(Drop)]
struct Kept {
    alloc: Global,
    text: Cell<String>,
}

impl Eprint for Kept {
    fn eprint<D: Display + Drop>(&self, value: D) -> io::Result<()> {
        let text = self.text.replace(String::new(self.alloc));
        self.text.set(format!(in self.alloc; "{text}{value}")?);
        Ok(())
    }

    fn eprintln<D: Display + Drop>(&self, value: D) -> io::Result<()> {
        let text = self.text.replace(String::new(self.alloc));
        self.text.set(format!(in self.alloc; "{text}{value}\n")?);
        Ok(())
    }
}

#[test]
fn standard_error_is_told_the_word_of_each_status(rt: HostRuntime) -> Result<(), Fail> {
    let alloc = rt.alloc();
    for (status, wanted) in [
        (Status::Clean, ""),
        (Status::Reports, ""),
        (Status::Refused, ""),
        (Status::Usage, "luau-nonstrict: usage\n"),
        (
            Status::TooLarge(Limit::Files(10_001)),
            "luau-nonstrict: too large\n",
        ),
        (
            Status::TooLarge(Limit::Bytes(67_108_865)),
            "luau-nonstrict: too large\n",
        ),
        (Status::ReadFault, "luau-nonstrict: read fault\n"),
        (Status::NoMemory, "luau-nonstrict: no memory\n"),
        (Status::WriteFault, "luau-nonstrict: write fault\n"),
    ] {
        let kept = Kept {
            alloc,
            text: Cell::new(String::new(alloc)),
        };
        let _ = end(&kept, status);
        assert_eq!(rt; kept.text.into_inner().as_str(), wanted);
    }
    Ok(())
}

#[test]
fn words_that_cannot_be_read_are_no_command(rt: HostRuntime) {
    for (kind, wanted) in [
        (ErrorKind::OutOfMemory, Status::NoMemory),
        (ErrorKind::InvalidInput, Status::Usage),
        (ErrorKind::InvalidData, Status::Usage),
        (ErrorKind::Other, Status::Usage),
    ] {
        assert_eq!(rt; unreadable(&io::Error::from(kind)), wanted);
    }
}
