// A name list has entries of kind, number, length and name (document 02, C-13).
ghost use Rattle.std.specs.Prelude.{length};
ghost use Rattle.std.specs.Iterator.{at_most};

// The kind of a predicate.
pub(crate) const PREDICATE: u8 = 4;

// What is left of a list.
#[derive(Clone, Copy)]
pub(crate) struct Entries<'a>(pub(crate) &'a [u8]);

impl<'a> Iterator for Entries<'a> {
    // A kind and a name.
    type Item = (u8, &'a [u8]);

    ghost remaining = { λ s. at_most (length s.0.now) };

    fn next(&mut self) -> Option<(u8, &'a [u8])> {
        let (&[kind, _, _, length], rest) = self.0.split_first_chunk::<4>()?;
        let (name, rest) = rest.split_at_checked(usize::from(length))?;
        self.0 = rest;
        Some((kind, name))
    }
}
