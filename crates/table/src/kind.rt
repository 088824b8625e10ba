// The kinds of a row.
ghost use Rattle.table.specs.Kinds.{Numbers, kind_number};
ghost use Rattle.std.specs.Prelude.{◌≡◌};

// What a step does, told without its channel and its value.
#[derive(Clone, Copy, Debug, PartialEq, Eq)]
pub enum Kind {
    Silent,
    Send,
    Receive,
}

// A number that no kind has.
#[derive(Clone, Copy, Debug, PartialEq, Eq)]
pub struct UnknownKind(pub u8);

impl TryFrom<u8> for Kind {
    type Error = UnknownKind;

    ghost try_from_gives = { Numbers };

    fn try_from(number: u8) -> Result<Kind, UnknownKind> {
        match number {
            0 => Ok(Kind::Silent),
            1 => Ok(Kind::Send),
            2 => Ok(Kind::Receive),
            _ => Err(UnknownKind(number)),
        }
    }
}

impl From<Kind> for u8 {
    ghost from_gives = { λ kind number. number ≡ kind_number kind };

    fn from(kind: Kind) -> u8 {
        match kind {
            Kind::Silent => 0,
            Kind::Send => 1,
            Kind::Receive => 2,
        }
    }
}
