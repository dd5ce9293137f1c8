// The file that stayed open, and its name.
ghost use Rattle.std.specs.Prelude.{◌≡◌, ◌⊎◌, false, Some, None, string_bytes, IsTrue, IfOk, IfSome, OnOk};

use crate::file_depot::Opened;
use std::alloc::{AllocError, Allocator};
use std::rt::Files;
use std::{fs, io};

/// The file that stayed open for the next fetch, where there is one, and the name of the file that stayed open last.
#[derive(Drop)]
pub(crate) struct Kept<F, A: Allocator> {
    name: String<A>,
    opened: Option<Opened<F>>,
}

impl<F: Drop, A: Allocator> Kept<F, A> {
    /// No file that stays open yet.
    pub(crate) fn new(alloc: A) -> Kept<F, A>
        ensures { result.opened ≡ None }
    {
        let name = String::new(alloc);
        Kept { name, opened: None }
    }

    /// Takes the open file out, where it is that of `name` and stands at `at`. None is kept after that.
    fn take(&mut self, name: &str, at: u64) -> Option<Opened<F>>
        ensures named { IfSome result (λ _. string_bytes self.old.name ≡ name.now) }
        ensures place { IfSome result (λ opened. opened.place ≡ at) }
        ensures one { IfSome result (λ opened. self.old.opened ≡ Some opened) }
        ensures none { self.new.opened ≡ None }
    {
        match self.opened.take() {
            Some(opened) if opened.place == at && self.name.as_str() == name => Some(opened),
            _ => None,
        }
    }

    /// Keeps `stream` open for `name`. Where memory is refused for the name, none does.
    pub(crate) fn keep(&mut self, alloc: A, name: &str, stream: Opened<F>) -> Result<(), AllocError>
        requires { IsTrue stream.is_stream }
        ensures named { OnOk result (string_bytes self.new.name ≡ name.now) }
        ensures one { OnOk result (self.new.opened ≡ Some stream) }
    {
        if self.name.as_str() != name {
            self.name = String::from_str(alloc, name)?;
        }
        self.opened = Some(stream);
        Ok(())
    }
}

/// The open file that `name` is read from at `at`: the file that stayed open, where it is that of `name` and stands there, else the file opened anew.
pub(crate) fn reach<R: Files + Alloc>(
    rt: &R,
    kept: &mut Kept<R::File, R::A>,
    name: &str,
    at: u64,
) -> io::Result<Opened<R::File>>
    ensures its_own { IfOk result (λ opened.
        ((opened.place ≡ 0) × (opened.is_stream ≡ false)) ⊎ ((string_bytes kept.old.name ≡ name.now) × (opened.place ≡ at))) }
    ensures none { kept.new.opened ≡ None }
{
    match kept.take(name, at) {
        Some(opened) => Ok(opened),
        None => Ok(Opened {
            file: fs::open(rt, name)?,
            place: 0,
            is_stream: false,
        }),
    }
}
