ghost use Rattle.std.specs.Prelude.{◌≡◌};

use mx_lists::Bytes;
use sqlite_items::Items;

/// A value. The kinds of containers are type codes as they stand in the bytes, and those of an empty map are 0.
#[cycle(value)]
#[derive(Debug, Drop)]
pub enum Value {
    Flag(bool),
    Byte(i8),
    Short(i16),
    Int(i32),
    Long(i64),
    /// Its eight bytes, unread.
    Double([u8; 8]),
    /// A byte string or a text.
    Bytes(Bytes),
    List {
        kind: u8,
        items: Items<Value>,
    },
    Set {
        kind: u8,
        items: Items<Value>,
    },
    Map {
        key_kind: u8,
        value_kind: u8,
        pairs: Items<(Value, Value)>,
    },
    Struct(Items<Field>),
}

/// A field of a struct.
#[cycle(value)]
#[derive(Debug, Drop)]
pub struct Field {
    pub id: i16,
    pub value: Value,
}

/// The fields of a struct, in reading order.
pub type Fields = Items<Field>;

pub(crate) fn id_of(field: &Field) -> i16
    ensures { result ≡ field.now.id }
{
    field.id
}
