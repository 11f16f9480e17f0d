//! The error of a stream's last failed call.

ghost use Rattle.std.specs.Prelude.{◌≡◌, Option};
ghost use Rattle.std.specs.declared.io.Error.{Error};

use std::io::Error;

/// A reader or a writer that stores the error of its last failed call, besides its contract as a `Source` or a `Sink`.
pub trait LastError {
    // the error, if a call has failed
    ghost error: { Self → Option Error };

    /// Returns the error of the last call that failed.
    fn last_error(&self) -> Option<Error>
        ensures { result ≡ error self.now };
}
