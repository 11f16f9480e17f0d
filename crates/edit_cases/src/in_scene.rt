//! A handle for the assertions of scenes, which tells their names.

use std::fmt::{self, Display, Formatter, Write};
use std::process::Abort;

// The message of an assertion in a scene.
#[derive(Drop)]
struct Said<D> {
    scene: &'static str,
    message: D,
}

impl<D: Display> Display for Said<D> {
    fn fmt<W: Write>(&self, f: &mut Formatter<W>) -> fmt::Result {
        write!(f, "{}: {}", self.scene, self.message)
    }
}

/// A handle for assertions. Its messages begin with the name of a scene.
#[derive(Clone, Copy)]
pub struct InScene<'a, R> {
    pub rt: &'a R,
    pub scene: &'static str,
}

impl<R: Abort> Abort for InScene<'_, R> {
    fn abort(&self) -> ! {
        self.rt.abort()
    }

    fn exit(&self, code: i32) -> ! {
        self.rt.exit(code)
    }

    fn panic<D: Display + Drop>(&self, message: D) -> ! {
        self.rt.panic(Said {
            scene: self.scene,
            message,
        })
    }
}
