// Where the types of bindings come from.
ghost use Rattle.std.specs.Prelude.{◌≡◌, ℕ};

// Whatever can tell the type of each binding.
pub trait BindingTypes {
    ghost types: { Self → ℕ → ℕ };

    fn type_of(&self, binding: u16) -> u16
        ensures { result ≡ types self.now binding };
}
