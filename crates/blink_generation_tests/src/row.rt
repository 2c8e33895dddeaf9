//! Rows of tables that a test goes through.
use std::fmt;
use std::fmt::{Display, Formatter};
use std::process::Abort;

// The handle for one row of a table. If an assertion fails in the row, its message begins with the row's name.
#[derive(Drop)]
pub(crate) struct Row<'a, R> {
    pub(crate) rt: &'a R,
    pub(crate) name: &'a str,
}

// What failed in a row.
#[derive(Drop)]
struct Failure<'a, D> {
    name: &'a str,
    message: D,
}

impl<D: Display> Display for Failure<'_, D> {
    fn fmt<W: fmt::Write>(&self, f: &mut Formatter<W>) -> fmt::Result {
        write!(f, "{}: {}", self.name, self.message)
    }
}

impl<R: Abort> Abort for Row<'_, R> {
    fn abort(&self) -> ! {
        self.rt.abort()
    }

    fn exit(&self, code: i32) -> ! {
        self.rt.exit(code)
    }

    fn panic<D: Display + Drop>(&self, message: D) -> ! {
        self.rt.panic(Failure {
            name: self.name,
            message,
        })
    }
}
