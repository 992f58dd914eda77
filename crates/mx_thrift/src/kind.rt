ghost use Rattle.std.specs.Prelude.{◌≡◌};
ghost use Rattle.mx_thrift.specs.Types.{kind_of_code};

/// What a type code says. Both codes of truth values are one kind: which of them stands is known beside it.
#[derive(Clone, Copy, Debug, PartialEq, Eq)]
pub(crate) enum Kind {
    Flag,
    Byte,
    Short,
    Int,
    Long,
    Double,
    Bytes,
    List,
    Set,
    Map,
    Struct,
}

/// The kind of a type code from 1 to 12.
#[tactic(auto, unfolding(crate::specs::Types::kind_of_code))]
pub(crate) fn kind_of(code: u8) -> Option<Kind>
    ensures { result ≡ kind_of_code code }
{
    match code {
        1 | 2 => Some(Kind::Flag),
        3 => Some(Kind::Byte),
        4 => Some(Kind::Short),
        5 => Some(Kind::Int),
        6 => Some(Kind::Long),
        7 => Some(Kind::Double),
        8 => Some(Kind::Bytes),
        9 => Some(Kind::List),
        10 => Some(Kind::Set),
        11 => Some(Kind::Map),
        12 => Some(Kind::Struct),
        _ => None,
    }
}
