// So many of something.
use std::fmt;

#[derive(Clone, Copy)]
pub struct Counted(pub u64, pub &'static str);

impl fmt::Display for Counted {
    fn fmt<W: fmt::Write>(&self, f: &mut fmt::Formatter<W>) -> fmt::Result {
        let Counted(count, one) = *self;
        let ending = if count == 1 { "" } else { "s" };
        write!(f, "{count} {one}{ending}")
    }
}
