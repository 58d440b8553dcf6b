// The assignment mark: whether the pattern that is walked stands on the left of an assignment.
ghost use Rattle.std.specs.Prelude.{◌≡◌};

#[derive(Clone, Copy)]
pub struct Mark {
    pub inside: bool,
}

// Holds the mark, and puts it back when it goes.
pub struct MarkGuard<'a> {
    pub mark: &'a mut Mark,
    pub was: bool,
}

impl Drop for MarkGuard<'_> {
    fn drop(self)
        ensures { self.exit.0.now.inside ≡ self.entry.was }
    {
        self.mark.inside = self.was;
        let MarkGuard { mark: _, was: _ } = self;
    }
}
