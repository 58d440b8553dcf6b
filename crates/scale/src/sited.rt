// A value with the site that set it, of whichever scale the value is.
#[derive(Clone, Copy, PartialEq, Eq, Debug)]
pub struct Sited<T> {
    pub value: T,
    pub site: u16,
}
