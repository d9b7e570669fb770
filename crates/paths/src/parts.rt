// The parts of a path text, as they are written.
#[derive(Clone, Copy, Debug)]
pub enum Separator {
    Slash,
    Slashes,
}

#[derive(Clone, Copy, Debug)]
pub enum Tested<'a> {
    Named(&'a [u8]),
    Star,
    Texts,
    Nodes,
}

#[derive(Clone, Copy, Debug)]
pub enum Written<'a> {
    Dot,
    Dots,
    Plain(Tested<'a>),
    Along(&'a [u8], Tested<'a>),
}
