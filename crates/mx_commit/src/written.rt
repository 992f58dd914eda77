use mx_base::Partition;
use mx_meta::WriteStat;

/// The entry of a file in the object of its commit, with the partition under which it stands.
#[derive(Debug, Drop)]
pub struct Written {
    pub partition: Partition,
    pub stat: WriteStat,
}
