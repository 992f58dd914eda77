ghost use Rattle.std.specs.Prelude.{◌≡◌};
ghost use Rattle.mx_base.specs.Shards.{shard_of};

use crate::Part;
use md5::{Digest, Md5};

/// The shard of an index partition in which the entries of a name stand.
pub fn shard(part: Part, name: &[u8]) -> u32
    ensures { result ≡ shard_of part name.now }
{
    let digest = Md5::digest(name);
    u32::from_be_bytes([digest[0], digest[1], digest[2], digest[3]]) % part.shards()
}
