// Bindings that are all of one type.
use crate::bindings::BindingTypes;

#[derive(Clone, Copy)]
pub struct OneType {
    pub each: u16,
}

impl BindingTypes for OneType {
    ghost types = { λ b _. b.each };

    fn type_of(&self, binding: u16) -> u16 {
        self.each
    }
}
