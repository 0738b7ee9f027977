#![tactic(auto)]

// Printing for the programs: what comes after a write that fails is still written.
ghost use Rattle.std.specs.Prelude.{IsOk};

use std::fmt::Display;
use std::io;

// Prints as what it holds does, and goes on where a write fails, which is no failure but in `write_some`.
#[derive(Drop)]
pub struct GoesOn<'a, R>(pub &'a R);

impl<R: Print> Print for GoesOn<'_, R> {
    fn print<D: Display + Drop>(&self, value: D) -> io::Result<()>
        ensures { IsOk result }
    {
        let _ = self.0.print(value);
        Ok(())
    }

    fn println<D: Display + Drop>(&self, value: D) -> io::Result<()>
        ensures { IsOk result }
    {
        let _ = self.0.println(value);
        Ok(())
    }

    fn write_all(&self, bytes: &[u8]) -> io::Result<()>
        ensures { IsOk result }
    {
        let _ = self.0.write_all(bytes);
        Ok(())
    }

    // Of some bytes it is told how many were written, or that none were.
    fn write_some(&self, bytes: &[u8]) -> io::Result<usize> {
        self.0.write_some(bytes)
    }
}
