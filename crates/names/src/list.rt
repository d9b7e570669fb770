// A text that has passed the check as a name list carries that in its type.
ghost use Rattle.std.specs.Prelude.{◌≡◌, None};
ghost use Rattle.std.proofs.Props.{props};
ghost use Rattle.names.specs.Lists.{first_bad};

// The calls stand apart, since the specs that they cite name this struct.
mod calls;

#[derive(Clone, Copy)]
pub struct NameList<'a> {
    bytes: &'a [u8],
    ghost good: { first_bad bytes.now ≡ None } by { Prim.hlevel props },
}
