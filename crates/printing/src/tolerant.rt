// Standard input and output of programs whose exit status tells nothing: a read that fails is the end of the
// input, and what a write that fails was to print is passed over. Memory that runs out is told.
ghost use Rattle.std.specs.Prelude.{◌≡◌, ◌↔◌, IsErr, IsErrAnd, IsOk};
ghost use Rattle.std.specs.IoError.{error_kind};

use std::alloc::AllocError;
use std::fmt::Display;
use std::io;
use std::io::ErrorKind;

// Prints by another one, which may fail; this one never does.
#[derive(Clone, Copy)]
pub struct Tolerant<'a, P> {
    to: &'a P,
}

impl<'a, P> Tolerant<'a, P> {
    pub fn new(to: &'a P) -> Tolerant<'a, P> {
        Tolerant { to }
    }
}

impl<P: Print> Print for Tolerant<'_, P> {
    fn print<D: Display + Drop>(&self, value: D) -> io::Result<()>
        ensures passed { IsOk result }
    {
        let _ = self.to.print(value);
        Ok(())
    }

    fn println<D: Display + Drop>(&self, value: D) -> io::Result<()>
        ensures passed { IsOk result }
    {
        let _ = self.to.println(value);
        Ok(())
    }

    fn write_all(&self, bytes: &[u8]) -> io::Result<()>
        ensures passed { IsOk result }
    {
        let _ = self.to.write_all(bytes);
        Ok(())
    }
}

// Of a read to the end of the input: one that failed has ended too, but for memory that ran out.
pub fn ended(read: io::Result<usize>) -> Result<(), AllocError>
    ensures memory { IsErr result ↔ IsErrAnd read (λ error. error_kind error ≡ ErrorKind.OutOfMemory) }
{
    match read {
        Err(error) if error.kind() == ErrorKind::OutOfMemory => Err(AllocError),
        _ => Ok(()),
    }
}
