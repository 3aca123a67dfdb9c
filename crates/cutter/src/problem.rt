// What keeps a command from being carried out: a refusal, after which the program goes on, or the end of memory or of the output.
use anyhow::anyhow;
use fault::{Failure, Fault};
use std::io;

#[derive(Drop)]
pub enum Problem {
    Refused(Fault),
    Fatal(anyhow::Error),
}

impl From<Fault> for Problem {
    fn from(fault: Fault) -> Problem {
        Problem::Refused(fault)
    }
}

impl From<Failure> for Problem {
    fn from(failure: Failure) -> Problem {
        match failure {
            Failure::Refused(fault) => Problem::Refused(fault),
            Failure::OutOfMemory => Problem::Fatal(anyhow!("out of memory")),
        }
    }
}

impl From<io::Error> for Problem {
    fn from(error: io::Error) -> Problem {
        Problem::Fatal(error.into())
    }
}
