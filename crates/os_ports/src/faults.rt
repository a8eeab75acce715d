ghost use Rattle.std.specs.Prelude.{◌≡◌, ◌≤◌};
ghost use Rattle.std.specs.Result.{result_ok};
ghost use Rattle.dump_ports.specs.Faults.{CountsFault, HasRisen};

use dump_ports::Failed;
use std::alloc::Global;
use std::fmt::{Display, Formatter};
use std::{fmt, io};

/// A failed call on a file: its name, and why it failed.
#[derive(Drop)]
pub struct FileFault {
    name: String,
    error: io::Error,
}

impl FileFault {
    /// A name that there is no memory for is left out.
    pub(crate) fn new(alloc: Global, name: &str, error: io::Error) -> FileFault {
        let name = match String::from_str(alloc, name) {
            Ok(name) => name,
            Err(_) => String::new(alloc),
        };
        FileFault { name, error }
    }
}

impl Display for FileFault {
    fn fmt<W: fmt::Write>(&self, f: &mut Formatter<W>) -> fmt::Result {
        write!(f, "{}: {}", self.name.as_str(), self.error)
    }
}

/// The answer of a step on a file, with its name where it failed.
pub(crate) fn named<T>(alloc: Global, name: &str, answer: io::Result<T>) -> Result<T, FileFault>
    ensures { result_ok result ≡ result_ok answer }
{
    match answer {
        Ok(found) => Ok(found),
        Err(error) => Err(FileFault::new(alloc, name, error)),
    }
}

/// Raises a count, which stops at 2^64 - 1.
fn raised(faults: &mut u64) -> Failed
    ensures { (faults.old ≤ faults.new) × HasRisen faults.old faults.new }
{
    *faults = faults.saturating_add(1);
    Failed
}

/// The answer of a call on a file, which raises the count where it is an error, and notes the first one.
pub(crate) fn noted<T>(
    answer: Result<T, FileFault>,
    first: &mut Option<FileFault>,
    faults: &mut u64,
) -> Result<T, Failed>
    ensures value { result_ok result ≡ result_ok answer }
    ensures count { CountsFault result faults.old faults.new }
{
    match answer {
        Ok(value) => Ok(value),
        Err(fault) => {
            if first.is_none() {
                *first = Some(fault);
            }
            Err(raised(faults))
        }
    }
}

/// The answer of a call, which raises the count where it is an error. The count stops at 2^64 - 1.
pub(crate) fn counted<T>(answer: io::Result<T>, faults: &mut u64) -> Result<T, Failed>
    ensures value { result_ok result ≡ result_ok answer }
    ensures count { CountsFault result faults.old faults.new }
{
    match answer {
        Ok(given) => Ok(given),
        Err(_) => Err(raised(faults)),
    }
}
