// Printing that never fails.
ghost use Rattle.std.specs.Prelude.{◌≡◌, Ok};

use std::fmt::Display;
use std::io;

/// A printer that passes over what another one fails to print, and goes on: a program's answers stand on its standard output alone, and where
/// that takes none there is nobody to tell.
#[derive(Clone, Copy)]
pub struct Unfailing<'a, P>(pub &'a P);

impl<P: Print> Print for Unfailing<'_, P> {
    fn print<D: Display + Drop>(&self, value: D) -> io::Result<()>
        ensures { result ≡ Ok tt }
    {
        let _ = self.0.print(value);
        Ok(())
    }

    fn println<D: Display + Drop>(&self, value: D) -> io::Result<()>
        ensures { result ≡ Ok tt }
    {
        let _ = self.0.println(value);
        Ok(())
    }

    fn write_all(&self, bytes: &[u8]) -> io::Result<()>
        ensures { result ≡ Ok tt }
    {
        let _ = self.0.write_all(bytes);
        Ok(())
    }
}
