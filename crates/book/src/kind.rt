// The kinds of a concept entry, each of which a record writes as a byte.
ghost use Rattle.std.specs.Prelude.{◌≡◌};
ghost use Rattle.std.specs.Result.{result_ok};
ghost use Rattle.book.specs.Kinds.{kind_of};

#[derive(Clone, Copy, Debug, PartialEq, Eq)]
pub(crate) enum Kind {
    Nothing,
    Everything,
    Name,
    Not,
    And,
    Or,
    Exists,
    Forall,
    NoneOf,
}

// A byte that is no kind's.
#[derive(Clone, Copy, Debug, PartialEq, Eq)]
pub(crate) struct UnknownKind;

impl TryFrom<u8> for Kind {
    type Error = UnknownKind;

    ghost try_from_gives = { λ byte r. result_ok r ≡ kind_of byte };

    #[tactic(auto, unfolding(crate::specs::Kinds::kind_of))]
    fn try_from(byte: u8) -> Result<Self, UnknownKind> {
        match byte {
            0 => Ok(Kind::Nothing),
            1 => Ok(Kind::Everything),
            2 => Ok(Kind::Name),
            3 => Ok(Kind::Not),
            4 => Ok(Kind::And),
            5 => Ok(Kind::Or),
            6 => Ok(Kind::Exists),
            7 => Ok(Kind::Forall),
            8 => Ok(Kind::NoneOf),
            _ => Err(UnknownKind),
        }
    }
}
