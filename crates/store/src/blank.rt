// A record of a book.
ghost use Rattle.std.specs.Prelude.{◌≡◌, ◌<◌, ◌^◌};
ghost use Rattle.store.specs.Book.{stop_of};
ghost use Rattle.store.specs.inner.Blanks.{blank_of};

// Its identifier, where its body starts in the book, and the body's two parts.
#[derive(Clone, Copy)]
pub struct Blank<'a> {
    pub identifier: usize,
    pub start: usize,
    pub descriptor: &'a [u8],
    pub flattened: &'a [u8],
}

impl Blank<'_> {
    // The first byte after its body.
    pub fn stop(self) -> usize
        requires { stop_of (blank_of self) < 2 ^ 64 }
        ensures { result ≡ stop_of (blank_of self.entry) }
    {
        self.start + (self.descriptor.len() + self.flattened.len())
    }
}
